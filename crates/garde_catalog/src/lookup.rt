//! Which of the languages that are offered some ranges ask for, by the look-up of RFC 4647, section
//! 3.4.
ghost use Rattle.std.specs.Prelude.{◌≡◌, ◌<◌, ◌↔◌, ◌∷◌, [], IfSome, IfNone, IsTrue, MatchOption, map};
ghost use Rattle.garde_catalog.specs.Field.{want_of};
ghost use Rattle.garde_catalog.specs.Lookup.{Fits, HasNone, IsBestWith, IsFound, IsLookup, IsPicked, IsThere};

use crate::language::Language;

/// A language that a request asks for.
#[derive(Clone, Copy, Debug)]
pub struct Range<'a> {
    /// The language, as `en-GB`.
    pub tag: &'a [u8],
    /// How much it is wanted, in thousandths. At 0 it is not.
    pub weight: u16,
}

// Whether a tag is the range, or what is left of it after cutting subtags off its end.
fn fits(range: &[u8], tag: &str) -> bool
    ensures { IsTrue result ↔ Fits range.now tag.now }
{
    let tag = tag.as_bytes();
    let len = tag.len();
    if range.len() < len {
        return false;
    }
    range[..len].eq_ignore_ascii_case(tag) && (range.len() == len || range[len] == b'-')
}

// Whether a tag of this length is the first that fits, or longer than the others.
fn is_longer(len: usize, best: Option<usize>, longest: usize) -> bool
    ensures { MatchOption best (IsTrue result) (λ _. IsTrue result ↔ (longest < len)) }
{
    match best {
        None => true,
        Some(_) => longest < len,
    }
}

// The place of the longest tag that fits a range.
fn look_up(range: &[u8], offered: &[Language]) -> Option<usize>
    ensures found { IfSome result (IsLookup offered.now range.now) }
    ensures none { IfNone result (HasNone offered.now range.now) }
{
    let mut best: Option<usize> = None;
    let mut longest: usize = 0;
    for (place, language) in offered.iter().enumerate() {
        if !fits(range, language.tag) {
            continue;
        }
        if !is_longer(language.tag.len(), best, longest) {
            continue;
        }
        best = Some(place);
        longest = language.tag.len();
    }
    best
}

/// The best of the ranges that were seen.
#[derive(Clone, Copy)]
pub(crate) struct Best {
    /// The place of the language that it asks for, or `None` where no range asks for one.
    pub place: Option<usize>,
    /// Its weight, or 0.
    pub weight: u16,
}

impl Best {
    // The best of these ranges and one more: that one where it weighs more and fits an offered tag.
    pub(crate) fn with_range(self, range: &Range<'_>, offered: &[Language]) -> Best
        ensures { IsBestWith offered.now (want_of range.now ∷ []) self result }
    {
        if range.weight <= self.weight {
            return self;
        }
        match look_up(range.tag, offered) {
            Some(place) => Best {
                place: Some(place),
                weight: range.weight,
            },
            None => self,
        }
    }
}

// The place of the language to answer in: the one that the range of the greatest weight asks for,
// the first of several. `None` means that no range that is wanted fits the tag of any language.
fn pick(ranges: &[Range<'_>], offered: &[Language]) -> Option<usize>
    ensures { IsPicked (map want_of ranges.now) offered.now result }
{
    let mut best = Best {
        place: None,
        weight: 0,
    };
    for range in ranges {
        best = best.with_range(range, offered);
    }
    best.place
}

impl Language {
    /// The language that a tag asks for, as a user names it after `--language`: by the look-up of
    /// RFC 4647, section 3.4, for `de-AT` that of `de`. `None` means that it asks for none that is
    /// offered.
    pub fn named(tag: &str, offered: &[Language]) -> Option<Language>
        ensures { IsThere offered.now (IsFound offered.now tag.now) result }
    {
        match look_up(tag.as_bytes(), offered) {
            Some(place) => match offered.get(place) {
                Some(language) => Some(*language),
                None => None,
            },
            None => None,
        }
    }

    /// The language to answer in: the one that the range of the greatest weight asks for, the first
    /// of several. `None` means that no range that is wanted fits the tag of any language.
    pub fn picked(ranges: &[Range<'_>], offered: &[Language]) -> Option<Language>
        ensures { IsThere offered.now (IsPicked (map want_of ranges.now) offered.now) result }
    {
        match pick(ranges, offered) {
            Some(place) => match offered.get(place) {
                Some(language) => Some(*language),
                None => None,
            },
            None => None,
        }
    }
}
