//! Tuples of three to six members.
ghost use Rattle.std.specs.Prelude.{◌||◌};
ghost use Rattle.garde.specs.Visits.{◌and◌};
ghost use Rattle.garde_schema.specs.Flat.{all3, all4, all5, all6};

use super::flat::read_nested;
use crate::form::Members;
use crate::handler::FormI18n;
use garde::{I18n, Report, Trail};
use garde_tape::Tree;
use std::alloc::AllocError;

/// Three in turn.
impl<'a, A: Members<'a>, B: Members<'a>, C: Members<'a>> Members<'a> for (A, B, C) {
    type Out = (A::Out, B::Out, C::Out);

    ghost visits = { λ all texts j.
        A.visits all.0 texts j and B.visits all.1 texts j and C.visits all.2 texts j };

    ghost value = { λ all j. all3 (A.value all.0 j) (B.value all.1 j) (C.value all.2 j) };

    ghost keeps = { λ all out. A.keeps all.0 out.0 × (B.keeps all.1 out.1 × C.keeps all.2 out.2) };

    ghost names = { λ all name. A.names all.0 name || (B.names all.1 name || C.names all.2 name) };

    fn read_members<'t, H: I18n + FormI18n>(
        &self,
        object: &Tree<'t, 'a>,
        trail: &mut Trail<'a>,
        report: &mut Report,
        h: &H,
    ) -> Result<Option<Self::Out>, AllocError> {
        read_nested(&nested!(self; [0] [1 2]), object, trail, report, h)
    }

    fn names(&self, name: &str) -> bool {
        nested!(self; [0] [1 2]).names(name)
    }
}

/// Four in turn.
impl<'a, A: Members<'a>, B: Members<'a>, C: Members<'a>, D: Members<'a>> Members<'a>
    for (A, B, C, D) {
    type Out = (A::Out, B::Out, C::Out, D::Out);

    ghost visits = { λ all texts j.
        A.visits all.0 texts j and B.visits all.1 texts j and C.visits all.2 texts j
        and D.visits all.3 texts j };

    ghost value = { λ all j.
        all4 (A.value all.0 j) (B.value all.1 j) (C.value all.2 j) (D.value all.3 j) };

    ghost keeps = { λ all out.
        A.keeps all.0 out.0 × (B.keeps all.1 out.1 × (C.keeps all.2 out.2 × D.keeps all.3 out.3)) };

    ghost names = { λ all name.
        A.names all.0 name || (B.names all.1 name || (C.names all.2 name || D.names all.3 name)) };

    fn read_members<'t, H: I18n + FormI18n>(
        &self,
        object: &Tree<'t, 'a>,
        trail: &mut Trail<'a>,
        report: &mut Report,
        h: &H,
    ) -> Result<Option<Self::Out>, AllocError> {
        read_nested(&nested!(self; [0 1] [2 3]), object, trail, report, h)
    }

    fn names(&self, name: &str) -> bool {
        nested!(self; [0 1] [2 3]).names(name)
    }
}

/// Five in turn.
impl<'a, A: Members<'a>, B: Members<'a>, C: Members<'a>, D: Members<'a>, E: Members<'a>> Members<'a>
    for (A, B, C, D, E) {
    type Out = (A::Out, B::Out, C::Out, D::Out, E::Out);

    ghost visits = { λ all texts j.
        A.visits all.0 texts j and B.visits all.1 texts j and C.visits all.2 texts j
        and D.visits all.3 texts j and E.visits all.4 texts j };

    ghost value = { λ all j.
        all5 (A.value all.0 j) (B.value all.1 j) (C.value all.2 j) (D.value all.3 j)
        (E.value all.4 j) };

    ghost keeps = { λ all out.
        A.keeps all.0 out.0 × (B.keeps all.1 out.1 × (C.keeps all.2 out.2 × (D.keeps all.3 out.3
        × E.keeps all.4 out.4))) };

    ghost names = { λ all name.
        A.names all.0 name || (B.names all.1 name || (C.names all.2 name || (D.names all.3 name
        || E.names all.4 name))) };

    fn read_members<'t, H: I18n + FormI18n>(
        &self,
        object: &Tree<'t, 'a>,
        trail: &mut Trail<'a>,
        report: &mut Report,
        h: &H,
    ) -> Result<Option<Self::Out>, AllocError> {
        read_nested(&nested!(self; [0 1 2] [3 4]), object, trail, report, h)
    }

    fn names(&self, name: &str) -> bool {
        nested!(self; [0 1 2] [3 4]).names(name)
    }
}

/// Six in turn.
impl<
    'a,
    A: Members<'a>,
    B: Members<'a>,
    C: Members<'a>,
    D: Members<'a>,
    E: Members<'a>,
    F: Members<'a>,
> Members<'a> for (A, B, C, D, E, F) {
    type Out = (A::Out, B::Out, C::Out, D::Out, E::Out, F::Out);

    ghost visits = { λ all texts j.
        A.visits all.0 texts j and B.visits all.1 texts j and C.visits all.2 texts j
        and D.visits all.3 texts j and E.visits all.4 texts j and F.visits all.5 texts j };

    ghost value = { λ all j.
        all6 (A.value all.0 j) (B.value all.1 j) (C.value all.2 j) (D.value all.3 j)
        (E.value all.4 j) (F.value all.5 j) };

    ghost keeps = { λ all out.
        A.keeps all.0 out.0 × (B.keeps all.1 out.1 × (C.keeps all.2 out.2 × (D.keeps all.3 out.3
        × (E.keeps all.4 out.4 × F.keeps all.5 out.5)))) };

    ghost names = { λ all name.
        A.names all.0 name || (B.names all.1 name || (C.names all.2 name || (D.names all.3 name
        || (E.names all.4 name || F.names all.5 name)))) };

    fn read_members<'t, H: I18n + FormI18n>(
        &self,
        object: &Tree<'t, 'a>,
        trail: &mut Trail<'a>,
        report: &mut Report,
        h: &H,
    ) -> Result<Option<Self::Out>, AllocError> {
        read_nested(&nested!(self; [0 1 2] [3 4 5]), object, trail, report, h)
    }

    fn names(&self, name: &str) -> bool {
        nested!(self; [0 1 2] [3 4 5]).names(name)
    }
}
