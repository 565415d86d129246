//! Why no text of a page is escaped.

ghost use Rattle.vk_page.specs.Page.{PlainTextsAreKept};

/// No byte of a plain text begins a tag or a reference, and HTML changes none.
pub fn plain_texts_are_kept()
    ensures { PlainTextsAreKept }
{}
