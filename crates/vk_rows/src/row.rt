//! What a row wants, and what was found of it.

ghost use Rattle.std.specs.Prelude.{◌≡◌, None};
ghost use Rattle.vk_rows.specs.Agreement.{Agrees};

/// What is asked, and what must come of it.
#[derive(Drop)]
pub struct Row {
    pub words: Vec<String>,
    pub input: Vec<u8>,
    pub output: Vec<u8>,
    /// The number of the status, or that and the text on standard error.
    pub status: Vec<u8>,
    /// What the steps of a trace give to see, a line each, where that is wanted.
    pub answers: Option<Vec<u8>>,
}

/// What came of it.
#[derive(Drop)]
pub struct Found {
    pub output: Vec<u8>,
    /// The number of the status.
    pub number: Vec<u8>,
    /// That and the text on standard error.
    pub status: Vec<u8>,
    pub answers: Vec<u8>,
}

/// What is not as the row wants it.
pub fn difference(row: &Row, found: &Found) -> Option<&'static str>
    ensures { result ≡ None → Agrees row.now found.now }
{
    if row.output.as_slice() != found.output.as_slice() {
        return Some("another output");
    }
    let status = row.status.as_slice();
    if status != found.status.as_slice() && status != found.number.as_slice() {
        return Some("another status");
    }
    match &row.answers {
        Some(answers) if answers.as_slice() != found.answers.as_slice() => Some("other answers"),
        _ => None,
    }
}
