//! Generated scripts, which are summed up.

use script_io::MemSink;
use script_run::generate;
use std::alloc::Global;
use std_library::StdLib;

/// A generated script of up to 20,000 steps, and what its run is to be like.
#[derive(Clone, Copy)]
pub(super) struct Generated {
    pub(super) name: &'static str,
    pub(super) steps: u64,
    pub(super) seed: u64,

    /// How many bytes the sink has room for.
    pub(super) room: usize,
    pub(super) written: &'static str,
    pub(super) status: u8,
}

/// Whether the run of the script writes what the row says, and ends as it says.
pub(super) fn is_summed_up(alloc: Global, row: &Generated) -> bool {
    match MemSink::new(alloc, row.room, Vec::new(alloc)) {
        Ok(mut sink) => {
            let steps = row.steps.min(20_000);
            let (ended, library) = generate(alloc, steps, row.seed, &mut sink, StdLib::new());
            drop(library);
            let well = ended == row.status && sink.written() == row.written.as_bytes();
            drop(sink);
            well
        }
        Err(_) => false,
    }
}

/// The first generated scripts, one with each kind of step, and one whose summary finds no room.
pub(super) const GENERATED: &[Generated] = &[
    Generated {
        name: "one step from the seed 0",
        steps: 1,
        seed: 0,
        room: 100,
        written: "lines 23 bytes 90 sum 6758 refused 0\n",
        status: 0,
    },
    Generated {
        name: "three steps from the seed 1",
        steps: 3,
        seed: 1,
        room: 100,
        written: "lines 28 bytes 129 sum 9710 refused 0\n",
        status: 0,
    },
    Generated {
        name: "200 steps from the seed 7",
        steps: 200,
        seed: 7,
        room: 100,
        written: "lines 546 bytes 4761 sum 344358 refused 0\n",
        status: 0,
    },
    Generated {
        name: "a sink with room for ten bytes",
        steps: 3,
        seed: 1,
        room: 10,
        written: "lines 28 b",
        status: 4,
    },
];
