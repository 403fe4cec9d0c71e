ghost use Rattle.std.specs.Prelude.{◌≤◌};
ghost use Rattle.trace_gen.specs.Generated.{IsMix, whole_lines};

use crate::expected::{assert_events, assert_made, compare};
use pcm_io::Text;
use std::alloc::{AllocError, Global};
use std::test::Fail;
use trace_gen::{Generator, Mix, generate, header, print_event};
use trace_reader::{Event, EventOp, parse};

// The text of events, of which there are few.
fn printed<const B: usize>(alloc: Global, events: &[Event<B>]) -> Result<Text, AllocError>
    requires size { B ≤ 128 }
{
    let mut text = Text::new(alloc, 4096)?;
    text.push(header());
    for event in events {
        if text.room() >= 64 + 2 * B {
            print_event(event, &mut text);
        }
    }
    Ok(text)
}

// The text of a generated trace.
fn generated<const B: usize>(
    alloc: Global,
    seed: u64,
    lines: u32,
    mix: Mix,
) -> Result<Text, AllocError>
    requires size { B ≤ 128 }
    requires some_lines { 1 ≤ lines }
    requires few_lines { lines ≤ whole_lines }
    requires mix { IsMix mix }
{
    let events = generate::<B>(alloc, seed, lines, mix)?;
    printed(alloc, events.as_slice())
}

// The expected texts are those of another program, which was written without this one.

#[test]
fn rows_that_are_all_cuts(rt: HostRuntime) {
    let mix = Mix {
        rows: 2,
        write_percent: 50,
        cuts: 2,
        step: 0,
        hot: 0,
    };
    let text = generated::<64>(rt.alloc(), 0, 4, mix);
    assert_made(&rt, text, b"tick,op,arg,data\n0,C,,\n0,C,,\n");
}

#[test]
fn hot_lines_writes_and_a_cut(rt: HostRuntime) {
    let mix = Mix {
        rows: 6,
        write_percent: 50,
        cuts: 1,
        step: 7,
        hot: 2,
    };
    let text = generated::<64>(rt.alloc(), 42, 8, mix);
    assert_made(
        &rt,
        text,
        b"tick,op,arg,data\n7,W,1,8ced240cfb7ce0fbb835d80c609f7db3736a8474381c23cb7dde504e009f8d9656351a22ff18172046cbd80e074ee99ac7cc95f0daf32c35d4a0b41932d6efee\n9,W,1,989b355470e714aebd0d5936bbbfcc11bde0d0efd4cf2f67681150d058e8c68b2e8b467f65bb7a367e17b0f1ea54e20cfcd5f581bb7a9e937b1d48e289cb8477\n13,C,,\n16,W,5,1caa04e681e986869325ba36e2fddad03cd8d216726b89248c7e1ae8d32e176dbb4c25dfbfa4edf2373f70c6c642ff85eb2cbd88371e32df1f483a587db0a015\n16,W,0,044ac6b97dfb754718cec558ab6cf6fb0f46b344442326b7d639ec7b81e0eac95340bb3e96860368961a82d98f35eb893dd848da52e7a7cc3d970657592071da\n22,R,1,\n",
    );
}

#[test]
fn the_greatest_seed_and_the_greatest_step(rt: HostRuntime) {
    let mix = Mix {
        rows: 5,
        write_percent: 30,
        cuts: 0,
        step: 65_535,
        hot: 0,
    };
    let text = generated::<64>(rt.alloc(), u64::MAX, 64, mix);
    assert_made(
        &rt,
        text,
        b"tick,op,arg,data\n10162,R,16,\n62013,R,51,\n87582,W,20,683fa7e87db443e2ff3d7b4cabfd937c250808805eb685a2d7cef0424898a2dadfce545852e48a57d499cc9d0ee5c8a47140db14080490ec91455b3ee7e2070f\n141563,R,5,\n171838,W,12,ab82d8d18e6e4b5da1574d8d91b5d9118c3471eedb4dc132ede264e41010f993ff4475841117e369013f6eeb40dbf5c8f6fbd81efb58050d282ad309c04061bf\n",
    );
}

#[test]
fn lines_of_128_bytes(rt: HostRuntime) {
    let mix = Mix {
        rows: 3,
        write_percent: 60,
        cuts: 0,
        step: 10,
        hot: 0,
    };
    let text = generated::<128>(rt.alloc(), 7, 512, mix);
    assert_made(
        &rt,
        text,
        b"tick,op,arg,data\n4,R,20,\n4,W,316,760379f5f263b2f689c4227c625b387780a31e62b3f951b928e501dc5a5b7054dd039c134d7f79fbed11c1d9fdb9c212391257b9ebe93e1d7eae6919a41a062c09c4102e06dfdbbba71c6a745d30f31c4f82c8c1f168a07e5be7547f9218e718e56513cc862bae29beaac21247ae362f2bd5438cd203251c9cb3c6a3f65939ca\n9,W,84,6309e2013ae1e4cab24123f226d6e6870efbaa5d5dfcc7d70c1af8b6be707b0119787ab8a0196301cd8ab0a2f15fdc1e7f6e706cd22f816243cc02d87e302d49801f7d6ade1099cd40248d4b142e4415032c64b71d13f1818cce5f7dda7a42d5b1b62f61ddb34f574177e184e1be0f9e41be0892933fc440b4310fb86aa24e96\n",
    );
}

static EVENTS: [Event<8>; 4] = [
    Event {
        tick: 0,
        op: EventOp::Write(3, [0, 0x11, 0x2a, 0x33, 0x44, 0x55, 0x66, 0xff]),
    },
    Event {
        tick: 7,
        op: EventOp::Mask(
            0,
            [0, 0xa1, 0, 0, 0, 0, 0, 0x5b],
            [false, true, false, false, false, false, false, true],
        ),
    },
    Event {
        tick: 7,
        op: EventOp::Cut,
    },
    Event {
        tick: 1_099_511_627_776,
        op: EventOp::Read(2),
    },
];

const TEXT: &[u8] =
    b"tick,op,arg,data\n0,W,3,00112a33445566ff\n7,M,0,..a1..........5b\n7,C,,\n1099511627776,R,2,\n";

#[test]
fn a_printed_trace_is_read_back(rt: HostRuntime) -> Result<(), Fail> {
    assert_made(&rt, printed(rt.alloc(), &EVENTS), TEXT);
    let read = parse::<8>(rt.alloc(), TEXT, 4)?;
    assert_events(&rt, read.as_slice(), &EVENTS);
    Ok(())
}

#[test]
fn a_generator_ends(rt: HostRuntime) {
    let mix = Mix {
        rows: 1,
        write_percent: 100,
        cuts: 0,
        step: 0,
        hot: 0,
    };
    let mut generator = Generator::<8>::new(0, 4, mix);
    let given = [
        generator.next_event().is_some(),
        generator.next_event().is_some(),
        generator.next_event().is_some(),
    ];
    compare(&rt, given, [true, false, false]);
}
