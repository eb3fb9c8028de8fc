//! The languages in which faults are reported.
ghost use Rattle.std.specs.Prelude.{◌≡◌};
ghost use Rattle.example_order.specs.Language.{language_of};

/// A language in which faults are reported.
#[derive(Clone, Copy)]
pub enum Language {
    English,
    Czech,
}

impl Language {
    /// The language of a tag (RFC 5646): Czech of `cs`, and English of any other and of none.
    pub fn of(tag: &[u8]) -> Language
        ensures { result ≡ language_of tag.now }
    {
        if tag == b"cs".as_slice() {
            Language::Czech
        } else {
            Language::English
        }
    }
}
