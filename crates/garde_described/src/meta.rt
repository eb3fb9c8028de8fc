//! What is asked of a schema: a form, too.
ghost use Rattle.std.specs.Prelude.{⊤, Some, true};
ghost use Rattle.garde.specs.Visits.{◌and◌, Visited};
ghost use Rattle.garde_described.specs.Faults.{faults};
ghost use Rattle.garde_described.specs.Links.{links};

use crate::check::check;
use crate::links::check_links;
use crate::schema::Schema;
use garde::{I18n, Report, Trail};
use garde_schema::{Form, FormI18n, Tree};
use std::alloc::AllocError;

/// The form of schemas with the keywords that are known here, as a schema. A keyword that is not known
/// is rejected by its name.
pub const META_SCHEMA: &str = r##"{
  "$ref": "#/$defs/schema",
  "$defs": {
    "schema": {
      "type": ["object", "boolean"],
      "properties": {
        "$schema": {"const": "https://json-schema.org/draft/2020-12/schema"},
        "$id": {"type": "string"},
        "$anchor": {"type": "string"},
        "$comment": {"type": "string"},
        "title": {"type": "string"},
        "description": {"type": "string"},
        "default": true,
        "examples": {"type": "array"},
        "deprecated": {"type": "boolean"},
        "readOnly": {"type": "boolean"},
        "writeOnly": {"type": "boolean"},
        "format": {"type": "string"},
        "contentEncoding": {"type": "string"},
        "contentMediaType": {"type": "string"},
        "$defs": {"$ref": "#/$defs/named"},
        "$ref": {"type": "string"},
        "allOf": {"$ref": "#/$defs/list"},
        "type": {"type": ["string", "array"], "items": {"$ref": "#/$defs/type"}, "minItems": 1},
        "enum": {"type": "array"},
        "const": true,
        "minLength": {"$ref": "#/$defs/count"},
        "maxLength": {"$ref": "#/$defs/count"},
        "minItems": {"$ref": "#/$defs/count"},
        "maxItems": {"$ref": "#/$defs/count"},
        "minProperties": {"$ref": "#/$defs/count"},
        "maxProperties": {"$ref": "#/$defs/count"},
        "minimum": {"type": "number"},
        "maximum": {"type": "number"},
        "exclusiveMinimum": {"type": "number"},
        "exclusiveMaximum": {"type": "number"},
        "prefixItems": {"$ref": "#/$defs/list"},
        "items": {"$ref": "#/$defs/schema"},
        "properties": {"$ref": "#/$defs/named"},
        "additionalProperties": {"$ref": "#/$defs/schema"},
        "required": {"type": "array", "items": {"type": "string"}}
      },
      "additionalProperties": false
    },
    "named": {"type": "object", "additionalProperties": {"$ref": "#/$defs/schema"}},
    "list": {"type": "array", "items": {"$ref": "#/$defs/schema"}, "minItems": 1},
    "type": {"enum": ["null", "boolean", "object", "array", "number", "string", "integer"]},
    "count": {"type": "integer", "minimum": 0}
  }
}"##;

// Asks the schema of schemas of a tree, and then where its references lead and what its bounds are.
fn check_both<'s, 't, 'a, H: I18n + FormI18n>(
    meta: &Schema<'s, 'a>,
    tree: &Tree<'t, 'a>,
    trail: &mut Trail<'a>,
    report: &mut Report,
    h: &H,
) -> Result<(), AllocError>
    ensures { Visited (faults (H.form_text h.now) meta.now.root meta.now.depth meta.now.root tree.now
        and links (H.form_text h.now) tree.now meta.now.depth true tree.now) (H.text h.now)
        trail.old trail.new report.old report.new result }
{
    check(&meta.root, meta.depth, &meta.root, tree, trail, report, h)?;
    check_links(tree, meta.depth, true, tree, trail, report, h)
}

/// The form of a schema: what `META_SCHEMA` asks of it, and that its references lead to an end, that
/// its bounds are read, and that none is below the other.
#[derive(Debug, Drop)]
pub struct MetaSchema<'s, 'a>(pub Schema<'s, 'a>);

impl<'s, 'a> Form<'a> for MetaSchema<'s, 'a> {
    type Out = ();

    ghost visits = { λ form texts j. faults texts form.0.root form.0.depth form.0.root j
        and links texts j form.0.depth true j };

    ghost value = { λ _ _. Some tt };

    ghost keeps = { λ _ _. ⊤ };

    fn read<'t, H: I18n + FormI18n>(
        &self,
        tree: &Tree<'t, 'a>,
        trail: &mut Trail<'a>,
        report: &mut Report,
        h: &H,
    ) -> Result<Option<()>, AllocError> {
        check_both(&self.0, tree, trail, report, h)?;
        Ok(Some(()))
    }
}
