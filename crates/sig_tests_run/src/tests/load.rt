//! The two texts and the tally, against texts and numbers made by hand or by another program.

use sig_load::{TallySink, flows_text, program_text};
use sig_text::{Sink, Wrote};
use std::test::Fail;

const TWO_STAGES: &str = "process LOAD = (? integer A; boolean B1, B2 ! integer Y2)
pragmas
RunOn {X1, Y1} \"1\"
RunOn {X2, Y2} \"2\"
end pragmas
(| B1 ^= A
 | X1 := (A + 1) when B1
 | Y1 := X1 default A
 | B2 ^= X1
 | X2 := (X1 + 2) when B2
 | Y2 := X2 default Y1
 |)
where integer X1, X2, Y1; end;
";

const ONE_STAGE: &str = "process LOAD = (? integer A; boolean B1 ! integer Y1)
pragmas
RunOn {X1, Y1} \"1\"
end pragmas
(| B1 ^= A
 | X1 := (A + 1) when B1
 | Y1 := X1 default A
 |)
where integer X1; end;
";

#[test]
fn writes_the_program(rt: HostRuntime) -> Result<(), Fail> {
    let one = program_text(rt.alloc(), 1)?;
    assert_eq!(rt; one.as_slice(), ONE_STAGE.as_bytes());
    let two = program_text(rt.alloc(), 2)?;
    assert_eq!(rt; two.as_slice(), TWO_STAGES.as_bytes());
    let twelve = program_text(rt.alloc(), 12)?;
    let text = std::str::from_utf8(twelve.as_slice())?;
    for part in [
        "boolean B1, B2, B3, B4, B5, B6, B7, B8, B9, B10, B11, B12 ! integer Y12)",
        "RunOn {X4, Y4} \"0\"\n",
        "RunOn {X11, Y11} \"3\"\nRunOn {X12, Y12} \"0\"\nend pragmas\n",
        " | B12 ^= X11\n | X12 := (X11 + 12) when B12\n | Y12 := X12 default Y11\n |)\n",
        "where integer X1, X2, X3, X4, X5, X6, X7, X8, X9, X10, X11, X12, Y1, Y2, Y3, Y4, Y5, Y6,",
        " Y7, Y8, Y9, Y10, Y11; end;\n",
    ] {
        assert!(rt; text.contains(part), "{part}");
    }
    Ok(())
}

/// The number and the sum of some bytes.
fn tallied(bytes: &[u8]) -> TallySink {
    let mut sink = TallySink::new();
    let _wrote = sink.write(bytes);
    sink
}

#[test]
fn draws_the_flows(rt: HostRuntime) -> Result<(), Fail> {
    let rows = [
        (
            1,
            1,
            187_766,
            14_032_391,
            "A 548 307 393 741 68 590 260 805 178 ",
        ),
        (
            1,
            3,
            407_747,
            34_730_769,
            "A 548 307 393 741 68 590 260 805 178 ",
        ),
        (
            1,
            12,
            1_397_684,
            127_875_099,
            "A 548 307 393 741 68 590 260 805 178 ",
        ),
        (
            0,
            1,
            187_707,
            14_029_004,
            "A 614 849 874 473 250 782 368 950 529 ",
        ),
        (
            u64::MAX,
            2,
            297_877,
            24_390_216,
            "A 977 687 355 205 728 974 771 95 881 64 ",
        ),
    ];
    for (seed, stages, bytes, sum, front) in rows {
        let text = flows_text(rt.alloc(), seed, stages)?;
        let tally = tallied(text.as_slice());
        assert_eq!(rt; tally.bytes(), bytes, "{seed} {stages}");
        assert_eq!(rt; tally.sum(), sum, "{seed} {stages}");
        assert!(rt;
            text.as_slice().starts_with(front.as_bytes()),
            "{seed} {stages}"
        );
    }
    Ok(())
}

#[test]
fn tallies_what_it_takes(rt: HostRuntime) {
    let mut sink = TallySink::new();
    assert_eq!(rt; sink.write(b"Y1 5\n"), Wrote::Took(5));
    assert_eq!(rt; sink.write(b""), Wrote::Took(0));
    assert_eq!(rt; sink.write(b"\xFF"), Wrote::Took(1));
    assert!(rt; sink.flush().is_ok());
    assert_eq!(rt; sink.bytes(), 6);
    // 89, 49, 32, 53, 10 and 255.
    assert_eq!(rt; sink.sum(), 488);
}
