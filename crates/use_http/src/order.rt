// Written by tools/port-garde from order.garde.rs: edit that file, not this one. Its sum is b3be9da9263e127d.
//! The form of an order in JSON, with its rules.
ghost use Rattle.std.specs.Prelude.{[], refl, ◌∷◌};
ghost use Rattle.garde.specs.Fields.{◌and◌, between, chars, count, each, field, is, items, prefix, range};
ghost use Rattle.garde_schema.specs.Spelling.{a_list_of, a_number, a_text, an_object, closed, made, member, two, u32_numbers};

use garde::fields::{Is, Prefix};
use garde::{I18n, Stated, Valid, length, range};
use garde_schema::{
    Built, Closed, FirstReadError, FormI18n, FromParts, Items, ListUnder, Member, Object, ReadBody,
    Scratch, Spelled, Text, TextRef, U32, Whole, read_json_first,
};
use std::alloc::Global;
use std::marker::PhantomData;

/// So many pieces of an article.
#[derive(Drop)]
pub struct Line<'t> {
    pub code: TextRef<'t>,
    pub count: u32,
}

impl<'t> Stated for Line<'t> {
    type Context = ();

    ghost visits = { λ v _.
        field "code" (is (prefix "P" v.code))
        and field "count" (is (range (between 1 99) v.count)) };
}

/// Who orders, and the lines.
#[derive(Drop)]
pub struct Order<'t> {
    pub customer: TextRef<'t>,
    pub lines: Items<Line<'t>>,
}

impl<'t> Stated for Order<'t> {
    type Context = ();

    ghost visits = { λ v ctx.
        field "customer" (is (chars (between 1 80) v.customer))
        and field "lines" (is (items (between 1 50) v.lines) and each (λ x. ⟦<Line<'t> as Stated>⟧.visits x ctx) v.lines) };
}

/// A value of the type `Line` is made of what its form reads.
impl<'t> FromParts for Line<'t> {
    type Parts = (TextRef<'t>, u32);

    ghost builds = { λ parts. record { code = parts.0; count = parts.1 } };

    ghost parts_of = { λ v. (v.code, v.count) };

    ghost kept = { λ _. refl };

    fn from_parts(parts: Self::Parts) -> Self {
        let (code, count) = parts;
        Line { code, count }
    }
}

/// A value of the type `Order` is made of what its form reads.
impl<'t> FromParts for Order<'t> {
    type Parts = (TextRef<'t>, Items<Line<'t>>);

    ghost builds = { λ parts. record { customer = parts.0; lines = parts.1 } };

    ghost parts_of = { λ v. (v.customer, v.lines) };

    ghost kept = { λ _. refl };

    fn from_parts(parts: Self::Parts) -> Self {
        let (customer, lines) = parts;
        Order { customer, lines }
    }
}

impl<'t> Spelled for Line<'t> {
    ghost spelled = { made (λ parts. record { code = parts.0; count = parts.1 })
        (an_object (closed (two
        (member "code" (a_text (λ v. is (prefix "P" v))))
        (member "count" (a_number u32_numbers (range (between 1 99) ∷ [])))))) };
}

impl<'t> Spelled for Order<'t> {
    ghost spelled = { made (λ parts. record { customer = parts.0; lines = parts.1 })
        (an_object (closed (two
        (member "customer" (a_text (λ v. is (chars (between 1 80) v))))
        (member "lines" (a_list_of (λ v. is (count (between 1 50) v)) ⟦<Line<'t> as Spelled>⟧.spelled))))) };
}

#[tactic(auto, unfolding(garde::specs::Fields::Known))]
impl<'a> ReadBody<'a> for Order<'a> {
    fn read_body<H: I18n + FormI18n>(
        alloc: Global,
        bytes: &'a [u8],
        scratch: &'a mut Scratch,
        most: usize,
        h: &H,
    ) -> Result<Order<'a>, FirstReadError> {
        let line_form = Built(
            Object(Closed((
                Member("code", Text(Is(Prefix("P")))),
                Member("count", Whole(U32, Is(range!(min = 1, max = 99)))),
            ))),
            PhantomData::<&Line<'_>>,
        );
        let order_form = Built(
            Object(Closed((
                Member("customer", Text(Is(length!(chars, min = 1, max = 80)))),
                Member(
                    "lines",
                    ListUnder(Is(length!(min = 1, max = 50)), line_form),
                ),
            ))),
            PhantomData::<&Order<'_>>,
        );
        match read_json_first(alloc, bytes, scratch, &order_form, most, h) {
            Ok(value) => Ok(Valid::known(value, &()).into_inner()),
            Err(error) => Err(error),
        }
    }
}

/// The description of `POST /orders` (OpenAPI 3.1).
pub const OPEN_API: &str = r##"{
  "openapi": "3.1.0",
  "jsonSchemaDialect": "https://json-schema.org/draft/2020-12/schema",
  "info": {
    "title": "Order",
    "version": "1"
  },
  "paths": {
    "/orders": {
      "post": {
        "requestBody": {
          "required": true,
          "content": {
            "application/json": {
              "schema": {
                "$ref": "#/components/schemas/Order"
              }
            }
          }
        },
        "responses": {
          "204": {
            "description": "The body is valid."
          },
          "400": {
            "description": "The body is not read as JSON.",
            "content": {
              "application/problem+json": {
                "schema": {
                  "$ref": "#/components/schemas/Problem"
                }
              }
            }
          },
          "415": {
            "description": "The body has another media type.",
            "headers": {
              "Accept": {
                "schema": {
                  "const": "application/json"
                }
              }
            },
            "content": {
              "application/problem+json": {
                "schema": {
                  "$ref": "#/components/schemas/Problem"
                }
              }
            }
          },
          "422": {
            "description": "The body has faults.",
            "content": {
              "application/problem+json": {
                "schema": {
                  "$ref": "#/components/schemas/Faults"
                }
              }
            }
          }
        }
      }
    }
  },
  "components": {
    "schemas": {
      "Order": {
        "title": "Order",
        "$comment": "no member stands twice in an object; a whole number is written by digits alone, and is not -0; nothing nests deeper than 128",
        "description": "Who orders, and the lines.",
        "type": "object",
        "properties": {
          "customer": {
            "type": "string",
            "minLength": 1,
            "maxLength": 80
          },
          "lines": {
            "type": "array",
            "items": {
              "$ref": "#/components/schemas/Line"
            },
            "minItems": 1,
            "maxItems": 50
          }
        },
        "required": [
          "customer",
          "lines"
        ],
        "additionalProperties": false
      },
      "Line": {
        "description": "So many pieces of an article.",
        "type": "object",
        "properties": {
          "code": {
            "type": "string",
            "pattern": "^P"
          },
          "count": {
            "type": "integer",
            "minimum": 1,
            "maximum": 99
          }
        },
        "required": [
          "code",
          "count"
        ],
        "additionalProperties": false
      },
      "Problem": {
        "type": "object",
        "properties": {
          "type": {
            "type": "string",
            "format": "uri-reference"
          },
          "title": {
            "type": "string"
          },
          "status": {
            "type": "integer"
          },
          "detail": {
            "type": "string"
          }
        },
        "required": [
          "title",
          "status"
        ]
      },
      "Faults": {
        "type": "object",
        "properties": {
          "type": {
            "type": "string",
            "format": "uri-reference"
          },
          "title": {
            "type": "string"
          },
          "status": {
            "const": 422
          },
          "detail": {
            "type": "string"
          },
          "errors": {
            "type": "array",
            "items": {
              "$ref": "#/components/schemas/Fault"
            }
          }
        },
        "required": [
          "title",
          "status",
          "errors"
        ]
      },
      "Fault": {
        "type": "object",
        "properties": {
          "pointer": {
            "type": "string",
            "format": "json-pointer"
          },
          "detail": {
            "type": "string"
          },
          "code": {
            "enum": [
              "length_greater_than",
              "length_lower_than",
              "member_missing",
              "member_repeated",
              "member_unknown",
              "out_of_range",
              "prefix_missing",
              "range_greater_than",
              "range_lower_than",
              "wrong_form"
            ]
          },
          "params": {
            "type": "object",
            "additionalProperties": {
              "type": "string"
            }
          }
        },
        "required": [
          "pointer",
          "detail"
        ]
      }
    }
  }
}
"##;
