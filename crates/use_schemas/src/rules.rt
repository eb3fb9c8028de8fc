//! What a body is judged by.
ghost use Rattle.std.specs.Prelude.{◌≡◌, ⊤, Some};
ghost use Rattle.use_schemas.specs.Rules.{AreOf, asked_by, rules_text};

use garde::{I18n, Report, Trail};
use garde_described::{META_SCHEMA, MetaSchema, Schema};
use garde_schema::{Form, FormI18n, Tree};
use std::alloc::AllocError;

/// The text of the rules: a schema, or the schema of schemas where none is given.
pub fn rules_text(schema: &[u8]) -> &[u8]
    ensures { result.now ≡ rules_text schema.now }
{
    if schema.is_empty() {
        META_SCHEMA.as_bytes()
    } else {
        schema
    }
}

/// What a body is judged by: a form.
#[derive(Debug, Drop)]
pub enum Rules<'s, 'a> {
    /// A body has to be a schema.
    OfSchemas(MetaSchema<'s, 'a>),
    /// A body has to meet a schema.
    OfBodies(Schema<'s, 'a>),
}

impl<'s, 'a> Rules<'s, 'a> {
    /// The rules of a schema, whose text has this value: without a schema the body has to be one.
    pub fn of(schema: &[u8], root: Tree<'s, 'a>) -> Rules<'s, 'a>
        ensures { AreOf schema.now root.entry result }
    {
        if schema.is_empty() {
            Rules::OfSchemas(MetaSchema(Schema::new(root)))
        } else {
            Rules::OfBodies(Schema::new(root))
        }
    }
}

impl<'s, 'a> Form<'a> for Rules<'s, 'a> {
    type Out = ();

    ghost visits = { λ rules texts j. asked_by rules texts j };

    ghost value = { λ _ _. Some tt };

    ghost keeps = { λ _ _. ⊤ };

    fn read<'t, H: I18n + FormI18n>(
        &self,
        tree: &Tree<'t, 'a>,
        trail: &mut Trail<'a>,
        report: &mut Report,
        h: &H,
    ) -> Result<Option<()>, AllocError> {
        match self {
            Rules::OfSchemas(meta) => meta.read(tree, trail, report, h),
            Rules::OfBodies(schema) => schema.read(tree, trail, report, h),
        }
    }
}
