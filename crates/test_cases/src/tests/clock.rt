//! A clock beside one input.
use super::{PUSHES, REPLY};
use ing_limits::Settings;
use ing_program::{Ends, Tick, Ticker, run};
use ing_store::{Fuse, MemoryStore};
use std::io::Read;
use std::test::Fail;

const BOARD: &str = "{\"cmd\":\"board\"}\n";

/// Each time that it is asked while nothing is at hand it counts: the second time it says a sweep, and at a later one a flush, or, where that
/// is none, nothing at all.
#[derive(Drop)]
struct Script {
    asked: u32,
    flush_at: u32,
}

impl Ticker for Script {
    fn next_tick(&mut self, at_hand: bool) -> Option<Tick> {
        if at_hand || self.flush_at == 0 {
            return None;
        }
        self.asked = self.asked.saturating_add(1);
        if self.asked == 2 {
            Tick::sweep_at(9_000_000_000_000_000_000)
        } else if self.asked == self.flush_at {
            Some(Tick::Flush)
        } else {
            None
        }
    }
}

/// What a clock says behind two pushes is done, and not replied to: what is asked then is told as it is then.
#[test]
fn what_a_clock_says_is_done_untold(rt: HostRuntime) -> Result<(), Fail> {
    let alloc = rt.alloc();
    // A flush that comes third is done before the question, one that comes fourth behind it.
    for (flush_at, shown, kept, stored) in [(0, 0, 2, 0), (3, 2, 0, 2), (4, 0, 0, 2)] {
        let settings = Settings::from_toml(alloc, "flush_check_period = \"1s\"\n")?;
        let store = MemoryStore::new(alloc)?;
        let mut ends = Ends::of(store.end(&rt, Fuse::None), Vec::new(alloc));
        let mut reader = PUSHES.as_bytes().chain(BOARD.as_bytes());
        let mut writer = Vec::new(alloc);
        let mut script = Script { asked: 0, flush_at };
        let ended = run(
            &rt,
            alloc,
            &mut reader,
            &mut writer,
            &mut ends,
            &mut script,
            settings,
        );
        assert_eq!(rt; ended, Ok(()));
        let expected = format!(in alloc;
            "{REPLY}{REPLY}{{\"board\":[{{\"accepted\":2,\"stored\":{shown}}}]}}\n{{\"report\":[{{\"accepted\":2,\"kept\":{kept},\"recovered\":0,\"stored\":{stored}}}]}}\n"
        )?;
        let written = String::from_utf8(writer).ok().ok_or("the output is text")?;
        assert_eq!(rt;
            written.as_str(),
            expected.as_str(),
            "a flush at {flush_at}"
        );
    }
    Ok(())
}
