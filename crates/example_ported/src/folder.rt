//! A type that holds itself, as it comes in a request.
ghost use Rattle.std.specs.Prelude.{is_some, refl, ◌≡◌};
ghost use Rattle.std.proofs.Common.{rules};
ghost use Rattle.garde.specs.Fields.{◌and◌, ascii, at_most, between, bytes, is, range, when};
ghost use Rattle.example_ported.specs.declared.folder.Folder.{out-Folder, roll-Folder, the_lemmas};

use garde::fields::{Ascii, Is, Rules, When};
use garde::{I18n, Report, Trail, length, range};
use garde_schema::{
    Built, Checked, Closed, FormI18n, FromNested, FromParts, Items, List, Member, Nested, Nullish,
    Object, ReadError, Scratch, Text, TextRef, U16, Under, Whole, read_json,
};
use std::alloc::{AllocError, Global};
use std::marker::PhantomData;

/// A folder, and the folders in it.
#[derive(Debug, Drop)]
pub struct Folder<'t> {
    /// Under which it is found.
    pub name: TextRef<'t>,
    pub size: Option<u16>,
    pub folders: Items<Folder<'t>>,
    pub note: TextRef<'t>,
}

/// A disk.
#[derive(Debug, Drop)]
pub struct Disk<'t> {
    pub label: TextRef<'t>,
    pub top: Items<Folder<'t>>,
}

/// A value of the type `Folder` is made of what its form reads, and of such values.
impl<'t> FromNested for Folder<'t> {
    type Own = (TextRef<'t>, (Option<u16>, TextRef<'t>));

    ghost builds = { λ own below.
        roll-Folder (record { name = own.0; size = own.1.0; note = own.1.1; folders = below }) };

    ghost parts_of = { λ v.
        (((out-Folder v).name, ((out-Folder v).size, (out-Folder v).note)), (out-Folder v).folders) };

    fn from_nested(own: Self::Own, below: Items<Self>) -> Self
        ensures { result ≡ roll-Folder
            (record { name = own.entry.0; size = own.entry.1.0; note = own.entry.1.1; folders = below.entry }) }
    {
        let (name, (size, note)) = own;
        Folder {
            name,
            size,
            folders: below,
            note,
        }
    }

    ghost kept = { λ _ _. Prim.search (rules, the_lemmas) };
}

/// What the field `note` of `Folder` asks beside others.
#[derive(Clone, Copy)]
struct FolderNoteRules;

impl<'t> Rules<(Option<u16>, TextRef<'t>)> for FolderNoteRules {
    ghost asks = { λ _ v. when (is_some v.0) (is (bytes (at_most 3) v.1)) };

    fn ask<'a, H: I18n>(
        &self,
        value: &(Option<u16>, TextRef<'t>),
        trail: &mut Trail<'a>,
        report: &mut Report,
        h: &H,
    ) -> Result<(), AllocError> {
        let (size, note) = value;
        When(size.is_some(), Is(length!(max = 3))).ask(note, trail, report, h)
    }
}

/// A value of the type `Disk` is made of what its form reads.
impl<'t> FromParts for Disk<'t> {
    type Parts = (TextRef<'t>, Items<Folder<'t>>);

    ghost builds = { λ parts. record { label = parts.0; top = parts.1 } };

    ghost parts_of = { λ v. (v.label, v.top) };

    ghost kept = { λ _. refl };

    fn from_parts(parts: Self::Parts) -> Self {
        let (label, top) = parts;
        Disk { label, top }
    }
}

/// Reads a value of the type `Disk` in JSON, or reports every fault of its form.
pub fn read_disk<'a, H: I18n + FormI18n>(
    alloc: Global,
    bytes: &'a [u8],
    scratch: &'a mut Scratch,
    h: &H,
) -> Result<Disk<'a>, ReadError> {
    let folder_form = Closed(Nested(
        "folders",
        (
            Member("name", Text((Is(Ascii), Is(length!(min = 1, max = 9))))),
            Checked(
                (
                    Nullish("size", Whole(U16, Is(range!(max = 1000)))),
                    Member("note", Text(())),
                ),
                Under("note", FolderNoteRules),
            ),
        ),
        PhantomData::<&Folder<'_>>,
    ));
    let disk_form = Built(
        Object((Member("label", Text(())), Member("top", List(folder_form)))),
        PhantomData::<&Disk<'_>>,
    );
    read_json(alloc, bytes, scratch, &disk_form, h)
}
