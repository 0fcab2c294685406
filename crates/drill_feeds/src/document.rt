ghost use Rattle.std.specs.Prelude.{◌≡◌, ◌≤◌, Ok};
ghost use Rattle.xdf_model.specs.Shape.{shape_in};
ghost use Rattle.drill_feeds.specs.Drill.{drill_document, drill_shape};

/// The header document of a feed of the drill, 1 to 3: two channels of `int16`, one of `double64`, one
/// of `string` (XDF 1.0, "StreamHeader chunk"; which they are is this project's own).
pub fn drill_doc(id: u32) -> &'static str
    requires low { 1 ≤ id }
    requires high { id ≤ 3 }
    ensures document { result.now ≡ drill_document id }
    // it has the shape of the samples
    ensures shape { shape_in (drill_document id) ≡ Ok (drill_shape id) }
{
    match id {
        1 => "<info><channel_count>2</channel_count><channel_format>int16</channel_format></info>",
        2 => {
            "<info><channel_count>1</channel_count><channel_format>double64</channel_format></info>"
        }
        _ => "<info><channel_count>1</channel_count><channel_format>string</channel_format></info>",
    }
}
