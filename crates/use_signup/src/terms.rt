//! What is said in a language besides the texts of its catalog, and the rule that the terms are accepted.
ghost use Rattle.std.specs.Prelude.{is_some};
ghost use Rattle.garde.specs.Fields.{asks_text};

use garde::fields::Rule;
use garde::{I18n, RuleError};
use std::alloc::Global;
use std::borrow::CowStr;

/// What is said in a language and is no text of its catalog.
#[derive(Clone, Copy)]
pub struct Words {
    pub welcome: &'static str,
    /// The message where the terms are not accepted.
    pub terms: &'static str,
}

/// The words in English.
pub const ENGLISH_WORDS: Words = Words {
    welcome: "welcome",
    terms: "the terms are not accepted",
};

/// The words in Czech.
pub const CZECH_WORDS: Words = Words {
    welcome: "vítejte",
    terms: "souhlas s podmínkami chybí",
};

/// The words in Arabic.
pub const ARABIC_WORDS: Words = Words {
    welcome: "مرحبًا",
    terms: "لم يتم قبول الشروط",
};

// The words of the other languages, by their first subtag.
static WORDS: [(&str, Words); 17] = [
    (
        "de",
        Words {
            welcome: "willkommen",
            terms: "die Bedingungen sind nicht akzeptiert",
        },
    ),
    (
        "fr",
        Words {
            welcome: "bienvenue",
            terms: "les conditions ne sont pas acceptées",
        },
    ),
    (
        "es",
        Words {
            welcome: "le damos la bienvenida",
            terms: "las condiciones no se han aceptado",
        },
    ),
    (
        "it",
        Words {
            welcome: "ti diamo il benvenuto",
            terms: "le condizioni non sono state accettate",
        },
    ),
    (
        "pt",
        Words {
            welcome: "boas-vindas",
            terms: "os termos não foram aceitos",
        },
    ),
    (
        "nl",
        Words {
            welcome: "welkom",
            terms: "de voorwaarden zijn niet geaccepteerd",
        },
    ),
    (
        "sv",
        Words {
            welcome: "välkommen",
            terms: "villkoren är inte godkända",
        },
    ),
    (
        "pl",
        Words {
            welcome: "witamy",
            terms: "regulamin nie został zaakceptowany",
        },
    ),
    ("cs", CZECH_WORDS),
    (
        "ru",
        Words {
            welcome: "добро пожаловать",
            terms: "условия не приняты",
        },
    ),
    (
        "uk",
        Words {
            welcome: "вітаємо",
            terms: "умови не прийнято",
        },
    ),
    (
        "tr",
        Words {
            welcome: "hoş geldiniz",
            terms: "koşullar kabul edilmedi",
        },
    ),
    (
        "ja",
        Words {
            welcome: "ようこそ",
            terms: "利用規約に同意していません",
        },
    ),
    (
        "zh",
        Words {
            welcome: "欢迎",
            terms: "未接受条款",
        },
    ),
    (
        "ko",
        Words {
            welcome: "환영합니다",
            terms: "약관에 동의하지 않았습니다",
        },
    ),
    ("ar", ARABIC_WORDS),
    (
        "hi",
        Words {
            welcome: "स्वागत है",
            terms: "शर्तें स्वीकार नहीं की गई हैं",
        },
    ),
];

// The words of the language of this subtag, and those in English where there are none.
fn words_under(subtag: &str) -> Words {
    for (language, words) in &WORDS {
        if *language == subtag {
            return *words;
        }
    }
    ENGLISH_WORDS
}

impl Words {
    /// The words of the language of a tag, and those in English where there are none.
    pub fn of(tag: &str) -> Words {
        match tag.split_once('-') {
            Some((subtag, _)) => words_under(subtag),
            None => words_under(tag),
        }
    }
}

/// The rule that the terms are accepted, with its message.
#[derive(Clone, Copy)]
pub struct Accepted<'c>(pub &'c Words);

impl<T> Rule<Option<T>> for Accepted<'_> {
    ghost finds = { λ rule accepted. asks_text rule.0.now.terms.now (is_some accepted) };

    fn find<H: I18n>(&self, alloc: Global, accepted: &Option<T>, _h: &H) -> Result<(), RuleError> {
        if accepted.is_some() {
            Ok(())
        } else {
            Err(RuleError::of(alloc, Ok(CowStr::Borrowed(self.0.terms))))
        }
    }
}
