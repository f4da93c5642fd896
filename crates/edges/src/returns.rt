// The edges of document 01 that are not marked P, in its order: returns of frames with pubdata. Those marked P are proved (`edges_hold` in claims).
use cycle::Input;
use frame::{Frame, PubdataCost, ROW_WIDTH};
use records::OperandFields;
use records::kinds::{Operation, ReturnKind};
use refusal::Refusal;
use stages::{ExecuteInput, State};

const LIMIT: u32 = 4;

// The words of a store for it. The cast makes a length: `From` makes no usize of a u32.
const STORE: usize = LIMIT as usize * ROW_WIDTH;

// A return from a local frame at depth 1. All that is not set is 0 or no.
#[derive(Clone, Copy)]
struct Case {
    kind: ReturnKind,
    // pubdata of the frame below, the revert counter, and pubdata of the frame that closes
    caller: i32,
    counter: i32,
    child: i32,
}

impl Case {
    fn state(self) -> State {
        let mut state = start::start_state(0, 0);
        state.current.is_local_frame = true;
        state.current.total_pubdata_spent = PubdataCost(self.child);
        state.pubdata_revert_counter = PubdataCost(self.counter);
        state
    }

    // The state after its cycle.
    fn run(self) -> Result<State, Refusal> {
        // nothing is allocated
        let mut store = [0u32; STORE];
        let below = Frame {
            total_pubdata_spent: PubdataCost(self.caller),
            ..Frame::default()
        };
        frame::save_frame(&mut store, 0, below)?;
        let plain = records::instruction(
            Operation::Ret as u8,
            self.kind as u8,
            OperandFields::default(),
            0,
            false,
        );
        let input = Input {
            code: u256::empty_word(),
            execute: ExecuteInput {
                word: u256::empty_word(),
                pointer: false,
            },
            settings: start::settings_of(LIMIT, 1),
            records: start::records_of(plain),
        };
        let cycled = cycle::cycle(self.state(), input, &mut store);
        match cycled.answer {
            Ok(_) => Ok(cycled.state),
            Err(refused) => Err(refused.refusal),
        }
    }
}

fn show(rt: &impl Print, kind: ReturnKind, caller: i32, counter: i32, child: i32) {
    let case = Case {
        kind,
        caller,
        counter,
        child,
    };
    let _ = print!(rt; "{kind}, caller pubdata {caller}, counter {counter}, child pubdata {child}");
    let _ = match case.run() {
        Ok(state) => println!(rt;
            ": counter {}, depth {}",
            state.pubdata_revert_counter.0, state.depth,
        ),
        Err(refusal) => println!(rt; ": refused {}", refusal.number()),
    };
}

pub(crate) fn table(rt: &impl Print) {
    show(rt, ReturnKind::Ok, 2147483647, 0, 1);
    show(rt, ReturnKind::Panic, 0, 5, 5);
    show(rt, ReturnKind::Panic, 0, 5, 6);
    show(rt, ReturnKind::Panic, 0, 5, -3);
    show(rt, ReturnKind::Ok, 0, -1, 0);
}
