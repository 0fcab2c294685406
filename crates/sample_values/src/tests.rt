ghost use Rattle.std.specs.Prelude.{◌≡◌, [], ◌∷◌, IfOk};
ghost use Rattle.xdf_model.specs.Sample.{number, text};

use super::*;
use rec_base::Memory;
use std::alloc::Global;
use std::test::Fail;
use xdf_model::Why;

const ONE_SECOND: u64 = 0x3FF0_0000_0000_0000;

#[test]
fn names_of_formats_are_whole(rt: HostRuntime) {
    for (name, format) in [
        ("float32", Some(Format::Float32)),
        ("double64", Some(Format::Double64)),
        ("string", Some(Format::Text)),
        ("int32", Some(Format::Int32)),
        ("int16", Some(Format::Int16)),
        ("int8", Some(Format::Int8)),
        ("int64", Some(Format::Int64)),
        ("int6", None),
        ("int644", None),
        ("Int8", None),
        ("", None),
    ] {
        assert_eq!(rt; format_of_name(name.as_bytes()), format, "at {name}");
    }
    assert_eq!(rt; format_name(Format::Text), "string");
    assert_eq!(rt; size_of_format(Format::Int16), 2);
}

#[test]
fn a_number_is_reversed_in_its_bytes(rt: HostRuntime) {
    assert_eq!(rt; reverse_value(2, 1), 256);
    assert_eq!(rt; reverse_value(4, 0x0000_803F), 0x3F80_0000);
    assert_eq!(rt; reverse_value(1, 200), 200);
    assert_eq!(rt; reverse_value(8, 0xF03F), ONE_SECOND);
}

fn numbers(alloc: Global, stamp: Stamp, first: u64, second: u64) -> Result<Sample, Memory>
    ensures { IfOk result (λ s. s ≡ record { stamp = stamp; values = number first ∷ number second ∷ [] }) }
{
    let mut sample = Sample::new(alloc, stamp);
    sample.push_bits(first)?;
    sample.push_bits(second)?;
    Ok(sample)
}

#[test]
fn numbers_stand_in_the_bytes_of_their_format(rt: HostRuntime) -> Result<(), Fail> {
    let shape = Shape {
        count: 2,
        format: Format::Int16,
    };
    let mut out = Vec::new(rt.alloc());
    for (stamp, first, second) in [
        (Stamp::Bits(ONE_SECOND), 1, 0xFFFF),
        (Stamp::None, 2, 0x8000),
    ] {
        let sample = numbers(rt.alloc(), stamp, first, second)?;
        assert!(rt; sample_fits(&shape, &sample));
        put_sample(&shape, &sample, &mut out)?;
    }
    let want = [
        8, 0, 0, 0, 0, 0, 0, 0xF0, 0x3F, 1, 0, 0xFF, 0xFF, 0, 2, 0, 0, 0x80,
    ];
    assert_eq!(rt; out.as_slice(), want.as_slice());
    Ok(())
}

#[test]
fn a_text_stands_behind_its_length(rt: HostRuntime) -> Result<(), Fail> {
    let shape = Shape {
        count: 1,
        format: Format::Text,
    };
    let mut sample = Sample::new(rt.alloc(), Stamp::Bits(ONE_SECOND));
    sample.push_text(rt.alloc(), b"hi")?;
    let view = sample.view();
    assert_eq!(rt; (view.stamp(), view.len()), (Stamp::Bits(ONE_SECOND), 1));
    assert_eq!(rt;
        (view.text_at(0), view.bits_at(0)),
        (Some(b"hi".as_slice()), None)
    );
    assert!(rt; sample_fits(&shape, &sample));
    let mut out = Vec::new(rt.alloc());
    put_view(&shape, &view, &mut out)?;
    let want = [8, 0, 0, 0, 0, 0, 0, 0xF0, 0x3F, 1, 2, b'h', b'i'];
    assert_eq!(rt; out.as_slice(), want.as_slice());
    assert_eq!(rt;
        (sample_size(&shape, &sample), view_size(&shape, &view)),
        (13, 13)
    );
    Ok(())
}

#[test]
fn a_sample_is_used_again(rt: HostRuntime) -> Result<(), Fail> {
    let mut sample = Sample::new(rt.alloc(), Stamp::Bits(ONE_SECOND));
    sample.push_text(rt.alloc(), b"hi")?;
    sample.push_text(rt.alloc(), b"")?;
    assert_eq!(rt; sample.text_at(1), Some(b"".as_slice()));
    let shape = |count| Shape {
        count,
        format: Format::Text,
    };
    let mut out = Vec::new(rt.alloc());
    assert!(rt; sample_fits(&shape(2), &sample));
    assert!(rt; !sample_fits(&shape(1), &sample));
    put_sample(&shape(2), &sample, &mut out)?;
    let want = [8, 0, 0, 0, 0, 0, 0, 0xF0, 0x3F, 1, 2, b'h', b'i', 1, 0];
    assert_eq!(rt; out.as_slice(), want.as_slice());
    sample.reset(Stamp::None);
    assert_eq!(rt; (sample.stamp(), sample.len()), (Stamp::None, 0));
    sample.push_text(rt.alloc(), &[b'x'; 256])?;
    out.clear();
    put_sample(&shape(1), &sample, &mut out)?;
    assert!(rt; out.starts_with([0, 4, 0, 1, 0, 0, b'x'].as_slice()));
    assert_eq!(rt; out.len(), 262);
    Ok(())
}

#[test]
fn texts_and_numbers_stand_in_their_order(rt: HostRuntime) -> Result<(), Fail> {
    let mut sample = Sample::new(rt.alloc(), Stamp::None);
    sample.push_text(rt.alloc(), b"hi")?;
    sample.push_bits(7)?;
    sample.push_text(rt.alloc(), b"j")?;
    assert_eq!(rt;
        (sample.text_at(0), sample.bits_at(0)),
        (Some(b"hi".as_slice()), None)
    );
    assert_eq!(rt; (sample.text_at(1), sample.bits_at(1)), (None, Some(7)));
    assert_eq!(rt;
        (sample.text_at(2), sample.len()),
        (Some(b"j".as_slice()), 3)
    );
    let format = Format::Text;
    assert!(rt; !sample_fits(&Shape { count: 3, format }, &sample));
    Ok(())
}

#[test]
fn a_sample_fits_by_its_count_and_each_value(rt: HostRuntime) -> Result<(), Fail> {
    let mut sample = numbers(rt.alloc(), Stamp::None, 0, 256)?;
    assert_eq!(rt; (sample.stamp(), sample.len()), (Stamp::None, 2));
    assert_eq!(rt; (sample.bits_at(1), sample.bits_at(2)), (Some(256), None));
    for (count, format, fits) in [
        (2, Format::Int16, true),
        (2, Format::Float32, true),
        (2, Format::Double64, true),
        (1, Format::Int16, false),
        (3, Format::Int16, false),
        (2, Format::Int8, false),
        (2, Format::Text, false),
    ] {
        assert_eq!(rt;
            sample_fits(&Shape { count, format }, &sample),
            fits,
            "{count} of {format:?}"
        );
    }
    sample.push_text(rt.alloc(), b"")?;
    assert_eq!(rt; sample.text_at(2), Some(b"".as_slice()));
    let format = Format::Int16;
    assert!(rt; !sample_fits(&Shape { count: 3, format }, &sample));
    Ok(())
}

fn raw(alloc: Global, shape: Shape, count: usize, bytes: &[u8]) -> Result<RawSamples, Fail> {
    match walk_samples(&shape, count as u64, bytes) {
        Ok([]) => Ok(RawSamples::from_bytes(alloc, shape, count, bytes)?),
        _ => Err("other samples".into()),
    }
}

// The texts that stand as bytes, whose lengths have the widths 1, 4 and 8.
const TEXTS: [u8; 34] = [
    8, 0, 0, 0, 0, 0, 0, 0xF0, 0x3F, 1, 2, b'h', b'i', 4, 3, 0, 0, 0, b'a', b'b', b'c', 0, 8, 0, 0,
    0, 0, 0, 0, 0, 0, 1, 1, b'x',
];

#[test]
fn texts_are_seen_where_they_lie(rt: HostRuntime) -> Result<(), Fail> {
    let shape = Shape {
        count: 2,
        format: Format::Text,
    };
    let list = raw(rt.alloc(), shape, 2, &TEXTS)?;
    assert_eq!(rt; (list.len(), list.has_texts()), (2, true));
    let mut samples = list.walk();
    let first = [1, 2, b'h', b'i', 1, 3, b'a', b'b', b'c'];
    let second = [1, 0, 1, 1, b'x'];
    for (stamp, texts, least) in [
        (Stamp::Bits(ONE_SECOND), ["hi", "abc"], first.as_slice()),
        (Stamp::None, ["", "x"], second.as_slice()),
    ] {
        let Some(view) = samples.next() else {
            return Err("too few samples".into());
        };
        assert_eq!(rt; (view.stamp(), view.len()), (stamp, 2));
        let mut values = view.values();
        for (i, text) in texts.into_iter().enumerate() {
            let text = text.as_bytes();
            assert_eq!(rt; (view.text_at(i), view.bits_at(i)), (Some(text), None));
            assert_eq!(rt; values.next(), Some(ValueView::Text(text)));
        }
        assert_eq!(rt; (view.text_at(2), values.next()), (None, None));
        assert!(rt; view_fits(&shape, &view));
        let mut out = Vec::new(rt.alloc());
        put_view(&shape, &view, &mut out)?;
        assert!(rt; out.ends_with(least));
        assert_eq!(rt; view_size(&shape, &view), out.len() as u64);
    }
    assert!(rt; samples.next().is_none());
    Ok(())
}

#[test]
fn numbers_are_seen_where_they_lie(rt: HostRuntime) -> Result<(), Fail> {
    for (format, bytes, stamp, want) in [
        (
            Format::Int8,
            [0, 1, 0xFF].as_slice(),
            Stamp::None,
            [1, 0xFF],
        ),
        (
            Format::Int16,
            [8, 0, 0, 0, 0, 0, 0, 0xF0, 0x3F, 1, 2, 0, 0x80].as_slice(),
            Stamp::Bits(ONE_SECOND),
            [0x0201, 0x8000],
        ),
        (
            Format::Double64,
            [0, 0, 0, 0, 0, 0, 0, 0xF0, 0x3F, 1, 0, 0, 0, 0, 0, 0, 0x80].as_slice(),
            Stamp::None,
            [ONE_SECOND, 0x8000_0000_0000_0001],
        ),
    ] {
        let shape = Shape { count: 2, format };
        let list = raw(rt.alloc(), shape, 1, bytes)?;
        assert_eq!(rt; (list.len(), list.has_texts()), (1, false));
        let Some(view) = list.walk().next() else {
            return Err("no sample".into());
        };
        assert_eq!(rt; (view.stamp(), view.len()), (stamp, 2));
        let mut values = view.values();
        for (i, bits) in want.into_iter().enumerate() {
            assert_eq!(rt; (view.bits_at(i), view.text_at(i)), (Some(bits), None));
            assert_eq!(rt; values.next(), Some(ValueView::Number(bits)));
        }
        assert_eq!(rt; (view.bits_at(2), values.next()), (None, None));
        assert!(rt; view_fits(&shape, &view));
        let mut out = Vec::new(rt.alloc());
        put_view(&shape, &view, &mut out)?;
        assert_eq!(rt; out.as_slice(), bytes);
    }
    Ok(())
}

#[test]
fn a_small_number_is_written_in_a_wider_format(rt: HostRuntime) -> Result<(), Fail> {
    let shape = |format| Shape { count: 2, format };
    let list = raw(rt.alloc(), shape(Format::Int8), 1, &[0, 1, 0xFF])?;
    let Some(view) = list.walk().next() else {
        return Err("no sample".into());
    };
    assert!(rt; !view_fits(&shape(Format::Text), &view));
    let wide = shape(Format::Int16);
    assert!(rt; view_fits(&wide, &view));
    let mut out = Vec::new(rt.alloc());
    put_view(&wide, &view, &mut out)?;
    assert_eq!(rt; out.as_slice(), [0, 1, 0, 0xFF, 0].as_slice());
    Ok(())
}

#[test]
fn a_walk_ends_behind_its_samples(rt: HostRuntime) {
    let shape = Shape {
        count: 1,
        format: Format::Int8,
    };
    let stamped = [0, 7, 0, 9, 8, 0, 0, 0, 0, 0, 0, 0xF0, 0x3F, 5, 0, 6];
    let wrong = |left, why| Err(WalkFault::Wrong { left, why });
    for (count, bytes, want) in [
        (0, stamped.as_slice(), Ok(stamped.as_slice())),
        (3, stamped.as_slice(), Ok([0, 6].as_slice())),
        (4, stamped.as_slice(), Ok([].as_slice())),
        (5, stamped.as_slice(), wrong(0, Why::SamplesShort)),
        (2, [0, 7, 3, 9].as_slice(), wrong(2, Why::BadStampWidth)),
    ] {
        assert_eq!(rt; walk_samples(&shape, count, bytes), want, "{count} samples");
    }
}
