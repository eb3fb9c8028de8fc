//! The variants of a union.
ghost use Rattle.std.specs.Prelude.{◌≡◌, ◌||◌, ℕ, List, Bool, Option, Some, None, option_map, option_and_then, IfOk, OnOk, if◌then◌else◌};
ghost use Rattle.std.specs.Str.{bytes_eq};
ghost use Rattle.json.specs.Json.{Json};
ghost use Rattle.garde_report.specs.Part.{key_part};
ghost use Rattle.garde.specs.Visits.{Visits, Visited, ◌and◌, under};
ghost use Rattle.garde_tape.specs.Look.{find_answer};
ghost use Rattle.garde_schema.specs.declared.either.Either.TheVariants.{Left, Right};
ghost use Rattle.garde_schema.specs.Forms.{FormTexts, forget, Sound};
ghost use Rattle.garde_schema.specs.Members.{unknown, members_in, once, member_visits};
ghost use Rattle.garde_schema.specs.Variants.{first_choice, either_visits, either_value, EitherKeeps, either_names};

use crate::closed::Closed;
use crate::either::Either;
use crate::form::{Form, Members};
use crate::handler::FormI18n;
use crate::member::Member;
use garde::{I18n, Report, Trail};
use garde_tape::Tree;
use std::alloc::AllocError;

/// The variants of a union. One of them is chosen by its name.
pub trait Variants<'a> {
    /// Which variant is chosen.
    type Choice: Copy + Drop;

    /// The value.
    type Out: Drop;

    /// The variant of this name.
    ghost chosen: { Self → List ℕ → Option Self.Choice };

    /// What a visit of an object gives, where this variant is chosen by the member of this name.
    ghost visits: { Self → Self.Choice → List ℕ → FormTexts → Json → Visits };

    /// The value that the object spells.
    ghost value: { Self → Self.Choice → Json → Option Self.Out };

    /// What the rules ask, said of the value.
    ghost keeps: { Self → Self.Out → Type 0 };

    /// Whether the variant asks for a member of this name.
    ghost names: { Self → Self.Choice → List ℕ → Bool };

    /// The variant of this name.
    fn choose(&self, name: &str) -> Option<Self::Choice>
        ensures { result ≡ chosen self.now name.now };

    /// Reads the members of the chosen variant, as `Form::read` does. `tag` is the member by which it
    /// was chosen.
    fn read_variant<'t, H: I18n + FormI18n>(
        &self,
        choice: Self::Choice,
        tag: &'a str,
        object: &Tree<'t, 'a>,
        trail: &mut Trail<'a>,
        report: &mut Report,
        h: &H,
    ) -> Result<Option<Self::Out>, AllocError>
        ensures answer { Visited (visits self.now choice tag.now (H.form_text h.now) object.now)
            (H.text h.now) trail.old trail.new report.old report.new (forget result) }
        ensures value { IfOk result (λ out. out ≡ value self.now choice object.now) }
        ensures sound { OnOk result
            (Sound (visits self.now choice tag.now (H.form_text h.now) object.now)
            (keeps self.now) (value self.now choice object.now)) };

    /// Whether the variant asks for a member of this name.
    fn names(&self, choice: Self::Choice, name: &str) -> bool
        ensures { result ≡ names self.now choice name.now };
}

/// A variant: its name, and the members of an object that has it.
#[derive(Clone, Copy, Debug)]
pub struct Variant<'n, M>(pub &'n str, pub M);

impl<'a, 'n, M: Members<'a>> Variants<'a> for Variant<'n, M> {
    type Choice = ();

    type Out = M::Out;

    ghost chosen = { λ variant name. if bytes_eq name variant.0.now then Some tt else None };

    ghost visits = { λ variant _ _ texts j. M.visits variant.1 texts j };

    ghost value = { λ variant _ j. M.value variant.1 j };

    ghost keeps = { λ variant out. M.keeps variant.1 out };

    ghost names = { λ variant _ name. M.names variant.1 name };

    fn choose(&self, name: &str) -> Option<()> {
        if name == self.0 { Some(()) } else { None }
    }

    fn read_variant<'t, H: I18n + FormI18n>(
        &self,
        _choice: (),
        _tag: &'a str,
        object: &Tree<'t, 'a>,
        trail: &mut Trail<'a>,
        report: &mut Report,
        h: &H,
    ) -> Result<Option<M::Out>, AllocError> {
        self.1.read_members(object, trail, report, h)
    }

    fn names(&self, _choice: (), name: &str) -> bool {
        self.1.names(name)
    }
}

/// A member as a variant: it is chosen by its own name, and it is all that is asked.
impl<'a, F: Form<'a>> Variants<'a> for Member<'a, F> {
    type Choice = ();

    type Out = F::Out;

    ghost chosen = { λ member name. if bytes_eq name member.0.now then Some tt else None };

    ghost visits = { λ member _ _ texts j. under (key_part member.0.now)
        (member_visits texts (λ v. F.visits member.1 texts v) (find_answer member.0.now j)) };

    ghost value = { λ member _ j.
        option_and_then (λ v. F.value member.1 v) (once (find_answer member.0.now j)) };

    ghost keeps = { λ member out. F.keeps member.1 out };

    ghost names = { λ member _ name. bytes_eq name member.0.now };

    fn choose(&self, name: &str) -> Option<()> {
        if name == self.0 { Some(()) } else { None }
    }

    fn read_variant<'t, H: I18n + FormI18n>(
        &self,
        _choice: (),
        _tag: &'a str,
        object: &Tree<'t, 'a>,
        trail: &mut Trail<'a>,
        report: &mut Report,
        h: &H,
    ) -> Result<Option<F::Out>, AllocError> {
        self.read_members(object, trail, report, h)
    }

    fn names(&self, _choice: (), name: &str) -> bool {
        name == self.0
    }
}

// The value of the first of two variants.
#[inline(always)]
pub(crate) fn left<A: Drop, B: Drop>(
    read: Result<Option<A>, AllocError>,
) -> Result<Option<Either<A, B>>, AllocError>
    ensures answer { forget result ≡ forget read }
    ensures value { (is : Option A) → IfOk read (λ value. value ≡ is)
        → IfOk result (λ out. out ≡ option_map (λ v. Left v) is) }
{
    match read {
        Ok(Some(value)) => Ok(Some(Either::Left(value))),
        Ok(None) => Ok(None),
        Err(refused) => Err(refused),
    }
}

// The value of the second.
#[inline(always)]
pub(crate) fn right<A: Drop, B: Drop>(
    read: Result<Option<B>, AllocError>,
) -> Result<Option<Either<A, B>>, AllocError>
    ensures answer { forget result ≡ forget read }
    ensures value { (is : Option B) → IfOk read (λ value. value ≡ is)
        → IfOk result (λ out. out ≡ option_map (λ v. Right v) is) }
{
    match read {
        Ok(Some(value)) => Ok(Some(Either::Right(value))),
        Ok(None) => Ok(None),
        Err(refused) => Err(refused),
    }
}

/// The first that has the name. Pairs nest, so there may be more than two.
impl<'a, A: Variants<'a>, B: Variants<'a>> Variants<'a> for (A, B) {
    type Choice = Either<A::Choice, B::Choice>;

    type Out = Either<A::Out, B::Out>;

    ghost chosen = { λ two name. first_choice (A.chosen two.0 name) (B.chosen two.1 name) };

    ghost visits = { λ two choice tag texts j. either_visits
        (λ a. A.visits two.0 a tag texts j) (λ b. B.visits two.1 b tag texts j) choice };

    ghost value = { λ two choice j.
        either_value (λ a. A.value two.0 a j) (λ b. B.value two.1 b j) choice };

    ghost keeps = { λ two out. EitherKeeps (λ x. A.keeps two.0 x) (λ y. B.keeps two.1 y) out };

    ghost names = { λ two choice name.
        either_names (λ a. A.names two.0 a name) (λ b. B.names two.1 b name) choice };

    fn choose(&self, name: &str) -> Option<Either<A::Choice, B::Choice>> {
        if let Some(choice) = self.0.choose(name) {
            return Some(Either::Left(choice));
        }
        Some(Either::Right(self.1.choose(name)?))
    }

    fn read_variant<'t, H: I18n + FormI18n>(
        &self,
        choice: Either<A::Choice, B::Choice>,
        tag: &'a str,
        object: &Tree<'t, 'a>,
        trail: &mut Trail<'a>,
        report: &mut Report,
        h: &H,
    ) -> Result<Option<Either<A::Out, B::Out>>, AllocError> {
        match choice {
            Either::Left(one) => {
                let read = self.0.read_variant(one, tag, object, trail, report, h);
                left(read)
            }
            Either::Right(other) => {
                let read = self.1.read_variant(other, tag, object, trail, report, h);
                right(read)
            }
        }
    }

    fn names(&self, choice: Either<A::Choice, B::Choice>, name: &str) -> bool {
        match choice {
            Either::Left(one) => self.0.names(one, name),
            Either::Right(other) => self.1.names(other, name),
        }
    }
}

// The members of the chosen variant, and the member by which it was chosen.
#[derive(Clone, Copy)]
struct Chosen<'v, 'a, V, C> {
    variants: &'v V,
    choice: C,
    tag: &'a str,
}

impl<'v, 'a, V: Variants<'a>> Members<'a> for Chosen<'v, 'a, V, V::Choice> {
    type Out = V::Out;

    ghost visits = { λ it texts j. V.visits it.variants.now it.choice it.tag.now texts j };

    ghost value = { λ it j. V.value it.variants.now it.choice j };

    ghost keeps = { λ it out. V.keeps it.variants.now out };

    ghost names = { λ it name. V.names it.variants.now it.choice name || bytes_eq name it.tag.now };

    fn read_members<'t, H: I18n + FormI18n>(
        &self,
        object: &Tree<'t, 'a>,
        trail: &mut Trail<'a>,
        report: &mut Report,
        h: &H,
    ) -> Result<Option<V::Out>, AllocError> {
        self.variants
            .read_variant(self.choice, self.tag, object, trail, report, h)
    }

    fn names(&self, name: &str) -> bool {
        self.variants.names(self.choice, name) || name == self.tag
    }
}

/// The members of the chosen variant, the member by which it was chosen, and no other.
impl<'a, V: Variants<'a>> Variants<'a> for Closed<V> {
    type Choice = V::Choice;

    type Out = V::Out;

    ghost chosen = { λ form name. V.chosen form.0 name };

    ghost visits = { λ form choice tag texts j. V.visits form.0 choice tag texts j
        and unknown (λ name. V.names form.0 choice name || bytes_eq name tag) texts (members_in j) };

    ghost value = { λ form choice j. V.value form.0 choice j };

    ghost keeps = { λ form out. V.keeps form.0 out };

    ghost names = { λ form choice name. V.names form.0 choice name };

    fn choose(&self, name: &str) -> Option<V::Choice> {
        self.0.choose(name)
    }

    fn read_variant<'t, H: I18n + FormI18n>(
        &self,
        choice: V::Choice,
        tag: &'a str,
        object: &Tree<'t, 'a>,
        trail: &mut Trail<'a>,
        report: &mut Report,
        h: &H,
    ) -> Result<Option<V::Out>, AllocError> {
        let variants = &self.0;
        let members = Chosen {
            variants,
            choice,
            tag,
        };
        Closed(members).read_members(object, trail, report, h)
    }

    fn names(&self, choice: V::Choice, name: &str) -> bool {
        self.0.names(choice, name)
    }
}
