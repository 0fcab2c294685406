// Header documents of the vectors.

/// One channel of int16.
pub(crate) const ONE_INT16: &[u8] =
    b"<info><channel_count>1</channel_count><channel_format>int16</channel_format></info>";

/// Two channels of int16.
pub(crate) const TWO_INT16: &[u8] =
    b"<info><channel_count>2</channel_count><channel_format>int16</channel_format></info>";

/// One channel of texts.
pub(crate) const ONE_TEXT: &[u8] =
    b"<info><channel_count>1</channel_count><channel_format>string</channel_format></info>";
