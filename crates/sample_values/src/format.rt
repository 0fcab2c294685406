ghost use Rattle.std.specs.Prelude.{◌≡◌, Some, IfSome};
ghost use Rattle.xdf_model.specs.Shape.{format_name as name_of};

use xdf_model::Format;

/// The name that a header document gives a format (XDF 1.0, "StreamHeader chunk").
pub fn format_name(format: Format) -> &'static str
    ensures { result.now ≡ name_of format }
{
    match format {
        Format::Float32 => "float32",
        Format::Double64 => "double64",
        Format::Text => "string",
        Format::Int32 => "int32",
        Format::Int16 => "int16",
        Format::Int8 => "int8",
        Format::Int64 => "int64",
    }
}

/// The format of this name, where the bytes are the whole name of one.
pub fn format_of_name(name: &[u8]) -> Option<Format>
    ensures found { IfSome result (λ format. name.now ≡ name_of format) }
    ensures each { (format : Format) → name.now ≡ name_of format → result ≡ Some format }
{
    match name {
        b"float32" => Some(Format::Float32),
        b"double64" => Some(Format::Double64),
        b"string" => Some(Format::Text),
        b"int32" => Some(Format::Int32),
        b"int16" => Some(Format::Int16),
        b"int8" => Some(Format::Int8),
        b"int64" => Some(Format::Int64),
        _ => None,
    }
}
