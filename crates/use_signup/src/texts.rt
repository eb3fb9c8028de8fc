//! What the service says in a language besides the texts of its catalog.
ghost use Rattle.std.specs.Prelude.{◌≡◌};

use crate::page::{ARABIC_PAGE, CZECH_PAGE, ENGLISH_PAGE};
use crate::plain::plain_page;
use crate::terms::{ARABIC_WORDS, CZECH_WORDS, ENGLISH_WORDS, Words};
use garde_catalog::Catalogs;
use garde_html::{Form, with_style};

/// The form, the words of its rules, and the page of thanks, in one language.
#[derive(Clone, Copy)]
pub struct Texts {
    pub form: Form<'static>,
    pub words: Words,
    /// The page that who signed up is led to.
    pub thanks: &'static str,
}

static IN_ENGLISH: Texts = Texts {
    form: ENGLISH_PAGE,
    words: ENGLISH_WORDS,
    thanks: ENGLISH_THANKS,
};

static IN_CZECH: Texts = Texts {
    form: CZECH_PAGE,
    words: CZECH_WORDS,
    thanks: CZECH_THANKS,
};

static IN_ARABIC: Texts = Texts {
    form: ARABIC_PAGE,
    words: ARABIC_WORDS,
    thanks: ARABIC_THANKS,
};

// A proof looks at all of a static where it is named, so each has a function that names it.

/// What is said in English.
fn in_english() -> &'static Texts {
    &IN_ENGLISH
}

/// What is said in Czech.
fn in_czech() -> &'static Texts {
    &IN_CZECH
}

/// What is said in Arabic.
fn in_arabic() -> &'static Texts {
    &IN_ARABIC
}

/// What is said in the language of this tag, and in English where there is nothing in it.
pub fn texts_in(tag: &str) -> &'static Texts {
    match tag {
        "cs" => in_czech(),
        "ar" => in_arabic(),
        _ => in_english(),
    }
}

/// The languages of the service.
#[derive(Clone, Copy)]
pub struct Speech<'a> {
    /// The texts of faults.
    pub catalogs: &'a Catalogs,
    /// What is said besides, in the order of the catalogs.
    pub texts: &'a [Texts],
    /// What is said where none of the languages is asked for.
    pub otherwise: &'a Texts,
}

impl<'a> Speech<'a> {
    ghost use Rattle.use_signup.specs.Texts.{texts_at};

    /// What is said in the language of this place, or where none is asked for.
    pub fn texts(&self, place: Option<usize>) -> &'a Texts
        ensures { result.now ≡ texts_at self.now.texts.now self.now.otherwise.now place }
    {
        match place {
            Some(place) => self.texts.get(place).unwrap_or(self.otherwise),
            None => self.otherwise,
        }
    }
}

const ENGLISH_THANKS: &str = with_style!(
    plain_page,
    "en",
    "ltr",
    "Thank you",
    "You are signed up."
);

const CZECH_THANKS: &str = with_style!(plain_page, "cs", "ltr", "Děkujeme", "Jste zaregistrováni.");

const ARABIC_THANKS: &str = with_style!(plain_page, "ar", "rtl", "شكرًا لك", "تم تسجيلك.");
