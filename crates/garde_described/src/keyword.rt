//! The keywords.
ghost use Rattle.std.specs.Prelude.{◌≡◌};
ghost use Rattle.garde_described.specs.Keywords.{keyword_of};

/// A keyword of JSON Schema, draft 2020-12, as its name has it.
#[derive(Clone, Copy, Debug, Drop, PartialEq, Eq)]
pub enum Keyword {
    /// `type`.
    OfType,
    /// `enum`.
    Enum,
    /// `const`.
    Const,
    /// `minLength`.
    MinLength,
    /// `maxLength`.
    MaxLength,
    /// `minimum`.
    Minimum,
    /// `maximum`.
    Maximum,
    /// `exclusiveMinimum`.
    ExclusiveMinimum,
    /// `exclusiveMaximum`.
    ExclusiveMaximum,
    /// `minItems`.
    MinItems,
    /// `maxItems`.
    MaxItems,
    /// `items`.
    Items,
    /// `prefixItems`.
    PrefixItems,
    /// `properties`.
    Properties,
    /// `required`.
    Required,
    /// `additionalProperties`.
    AdditionalProperties,
    /// `minProperties`.
    MinProperties,
    /// `maxProperties`.
    MaxProperties,
    /// `allOf`.
    AllOf,
    /// `$ref`.
    Ref,
    /// `$defs`.
    Definitions,
    /// `$id`.
    Id,
    /// Any other name. It asks nothing.
    Annotation,
}

impl Keyword {
    // The keyword of a name. The commonest are told first, by their lengths.
    pub(crate) fn of(name: &str) -> Keyword
        ensures { result ≡ keyword_of name.now }
    {
        match name.len() {
            4 if name == "type" => Keyword::OfType,
            4 if name == "$ref" => Keyword::Ref,
            7 if name == "minimum" => Keyword::Minimum,
            7 if name == "maximum" => Keyword::Maximum,
            8 if name == "required" => Keyword::Required,
            9 if name == "minLength" => Keyword::MinLength,
            9 if name == "maxLength" => Keyword::MaxLength,
            10 if name == "properties" => Keyword::Properties,
            20 if name == "additionalProperties" => Keyword::AdditionalProperties,
            _ => Keyword::of_any(name),
        }
    }

    // The same of any name.
    fn of_any(name: &str) -> Keyword
        ensures { result ≡ keyword_of name.now }
    {
        match name {
            "type" => Keyword::OfType,
            "enum" => Keyword::Enum,
            "const" => Keyword::Const,
            "minLength" => Keyword::MinLength,
            "maxLength" => Keyword::MaxLength,
            "minimum" => Keyword::Minimum,
            "maximum" => Keyword::Maximum,
            "exclusiveMinimum" => Keyword::ExclusiveMinimum,
            "exclusiveMaximum" => Keyword::ExclusiveMaximum,
            "minItems" => Keyword::MinItems,
            "maxItems" => Keyword::MaxItems,
            "items" => Keyword::Items,
            "prefixItems" => Keyword::PrefixItems,
            "properties" => Keyword::Properties,
            "required" => Keyword::Required,
            "additionalProperties" => Keyword::AdditionalProperties,
            "minProperties" => Keyword::MinProperties,
            "maxProperties" => Keyword::MaxProperties,
            "allOf" => Keyword::AllOf,
            "$ref" => Keyword::Ref,
            "$defs" => Keyword::Definitions,
            "$id" => Keyword::Id,
            _ => Keyword::Annotation,
        }
    }
}
