//! Unions by a test, and names beside those that are known: the whole report of each body in English and as
//! codes, or its value.

use super::told::{Coded, told_with};
use garde::I18n;
use garde_schema::{
    Any, AnyOf, Choice, Closed, FormI18n, Has, HasWith, IsUnsigned, IsWhole, Kind, List, Member,
    Not, Null, Object, OneMember, OneOf, OneOfOr, Otherwise, Same, Tagged, Text, U8, Variant,
    Whole, WithDefault,
};
use garde_tape::Tree;
use std::alloc::{AllocError, Global};
use std::marker::PhantomData;

/// The forms of this module.
pub enum Case {
    Actions,
    Numbers,
    Objects,
    Sources,
    Tickets,
}

/// The value of a tree of this form, as text, or its report.
pub fn told_by<H: I18n + FormI18n>(
    alloc: Global,
    tree: &Tree<'_, '_>,
    case: &Case,
    h: &H,
) -> Result<String, AllocError> {
    match case {
        // What is done, under a tag: no content, or a number; every other name is read, with no content.
        Case::Actions => {
            let close = Variant("close", WithDefault("with", Null, ()));
            let wait = Variant("wait", Member("with", Whole(U8, ())));
            let other = Otherwise(WithDefault("with", Null, ()));
            told_with(
                alloc,
                tree,
                &Tagged("type", Closed((close, (wait, other)))),
                h,
            )
        }
        // A byte, another whole number or a truth value, a text, a number with a fraction, or null.
        Case::Numbers => {
            let text = Choice(Kind::Text, Text(()), Choice(Not(Kind::Null), Any, Null));
            let whole = Choice(AnyOf(IsWhole, Kind::Boolean), Any, text);
            told_with(alloc, tree, &Choice(IsUnsigned, Whole(U8, ()), whole), h)
        }
        // A list, an object with two members, one by the text of a member, or one with no further name.
        Case::Objects => {
            let both = (Has("a"), Has("b"));
            let pair = Object((Member("a", Whole(U8, ())), Member("b", Whole(U8, ()))));
            let known = OneOf(&[("x", ()), ("y", ())]);
            let kind = Object(Member("kind", known));
            let named = Choice(HasWith("kind", known), kind, Object(Closed(())));
            let object = Choice(both, pair, named);
            told_with(alloc, tree, &Choice(Kind::List, List(Any), object), h)
        }
        // A source, of which two are known.
        Case::Sources => told_with(alloc, tree, &OneOfOr(&[("mail", 0_u8), ("phone", 1)], 9), h),
        // A ticket by the only member, one under two names, one with no members.
        Case::Tickets => {
            let seat = Same(
                Member("seat", Whole(U8, ())),
                Member("place", Whole(U8, ())),
            );
            let form = OneMember((seat, Member("free", Object(Closed(())))), PhantomData);
            told_with(alloc, tree, &form, h)
        }
    }
}

/// Bodies, and what each reads as, in English and as codes.
pub const ROWS: &[(Coded, &[(&str, &str, &str)])] = &[
    (
        Coded::Choices(Case::Sources),
        &[
            ("\"mail\"", "0", "0"),
            ("\"phone\"", "1", "1"),
            ("\"Mail\"", "9", "9"),
            ("\"\"", "9", "9"),
            ("7", "not a text\n", "wrong_form wanted=Text found=Number\n"),
            (
                "null",
                "not a text\n",
                "wrong_form wanted=Text found=Null\n",
            ),
        ],
    ),
    (
        Coded::Choices(Case::Actions),
        &[
            ("{\"type\":\"close\"}", "Left(())", "Left(())"),
            ("{\"with\":null,\"type\":\"close\"}", "Left(())", "Left(())"),
            (
                "{\"type\":\"wait\",\"with\":7}",
                "Right(Left(7))",
                "Right(Left(7))",
            ),
            (
                "{\"type\":\"jump\"}",
                "Right(Right(()))",
                "Right(Right(()))",
            ),
            (
                "{\"type\":\"jump\",\"with\":7,\"more\":1}",
                "with: not null\nmore: not known here\n",
                "with: wrong_form wanted=Null found=Number\nmore: member_unknown\n",
            ),
            (
                "{\"type\":\"wait\"}",
                "with: missing\n",
                "with: member_missing\n",
            ),
            (
                "{\"type\":7}",
                "type: not a text\n",
                "type: wrong_form wanted=Text found=Number\n",
            ),
        ],
    ),
    (
        Coded::Choices(Case::Numbers),
        &[
            ("255", "Left(255)", "Left(255)"),
            ("256", "out of range: 0 to 255\n", "out_of_range of=u8\n"),
            ("-1", "Right(Left(()))", "Right(Left(()))"),
            ("18446744073709551616", "Right(Left(()))", "Right(Left(()))"),
            ("true", "Right(Left(()))", "Right(Left(()))"),
            (
                "\"a\"",
                "Right(Right(Left(TextRef(\"a\"))))",
                "Right(Right(Left(TextRef(\"a\"))))",
            ),
            (
                "1.5",
                "Right(Right(Right(Left(()))))",
                "Right(Right(Right(Left(()))))",
            ),
            (
                "null",
                "Right(Right(Right(Right(()))))",
                "Right(Right(Right(Right(()))))",
            ),
        ],
    ),
    (
        Coded::Choices(Case::Objects),
        &[
            ("[1,{}]", "Left(Items([(), ()]))", "Left(Items([(), ()]))"),
            (
                "{\"b\":1,\"a\":2}",
                "Right(Left((2, 1)))",
                "Right(Left((2, 1)))",
            ),
            (
                "{\"a\":1,\"a\":1,\"b\":-1}",
                "a: repeated\nb: out of range: 0 to 255\n",
                "a: member_repeated\nb: out_of_range of=u8\n",
            ),
            (
                "{\"kind\":\"y\"}",
                "Right(Right(Left(())))",
                "Right(Right(Left(())))",
            ),
            (
                "{\"kind\":\"z\"}",
                "kind: not known here\n",
                "kind: member_unknown\n",
            ),
            ("{\"a\":1}", "a: not known here\n", "a: member_unknown\n"),
            ("{}", "Right(Right(Right(())))", "Right(Right(Right(())))"),
            (
                "\"x\"",
                "not an object\n",
                "wrong_form wanted=Object found=Text\n",
            ),
        ],
    ),
    (
        Coded::Choices(Case::Tickets),
        &[
            ("{\"seat\":7}", "Left(7)", "Left(7)"),
            ("{\"place\":7}", "Left(7)", "Left(7)"),
            ("{\"free\":{}}", "Right(())", "Right(())"),
            (
                "{\"place\":\"7\"}",
                "place: not a whole number\n",
                "place: wrong_form wanted=Whole found=Text\n",
            ),
            (
                "{\"free\":{\"seat\":7}}",
                "free.seat: not known here\n",
                "free.seat: member_unknown\n",
            ),
            (
                "{\"Seat\":7}",
                "Seat: not known here\n",
                "Seat: member_unknown\n",
            ),
        ],
    ),
];
