// The names of kinds.
ghost use Rattle.std.specs.Prelude.{◌≡◌};
ghost use Rattle.cy_value.specs.Names.{kind_name, kind_named};

use crate::ScalarKind;

impl ScalarKind {
    /// The kind of a name, where there is one.
    pub fn named(name: &str) -> Option<ScalarKind>
        ensures { result ≡ kind_named name.now }
    {
        match name {
            "INT32" => Some(ScalarKind::Int32),
            "INT64" => Some(ScalarKind::Int64),
            "UINT32" => Some(ScalarKind::Uint32),
            "UINT64" => Some(ScalarKind::Uint64),
            "SINT32" => Some(ScalarKind::Sint32),
            "SINT64" => Some(ScalarKind::Sint64),
            "FIXED32" => Some(ScalarKind::Fixed32),
            "FIXED64" => Some(ScalarKind::Fixed64),
            "SFIXED32" => Some(ScalarKind::Sfixed32),
            "SFIXED64" => Some(ScalarKind::Sfixed64),
            "BOOL" => Some(ScalarKind::Bool),
            "ENUM" => Some(ScalarKind::Enum),
            "FLOAT" => Some(ScalarKind::Float),
            "DOUBLE" => Some(ScalarKind::Double),
            _ => None,
        }
    }

    /// Its name.
    pub fn name(self) -> &'static str
        ensures { result.now ≡ kind_name self }
    {
        match self {
            ScalarKind::Int32 => "INT32",
            ScalarKind::Int64 => "INT64",
            ScalarKind::Uint32 => "UINT32",
            ScalarKind::Uint64 => "UINT64",
            ScalarKind::Sint32 => "SINT32",
            ScalarKind::Sint64 => "SINT64",
            ScalarKind::Fixed32 => "FIXED32",
            ScalarKind::Fixed64 => "FIXED64",
            ScalarKind::Sfixed32 => "SFIXED32",
            ScalarKind::Sfixed64 => "SFIXED64",
            ScalarKind::Bool => "BOOL",
            ScalarKind::Enum => "ENUM",
            ScalarKind::Float => "FLOAT",
            ScalarKind::Double => "DOUBLE",
        }
    }
}
