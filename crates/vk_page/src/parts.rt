//! The fixed text of a page.

/// The fixed text of a page, in the pieces that stand before, between and behind its three texts.
#[derive(Clone, Copy)]
pub struct PageParts<'a> {
    pub opening: &'a [u8],
    pub before_report: &'a [u8],
    pub before_frames: &'a [u8],
    pub ending: &'a [u8],
}
