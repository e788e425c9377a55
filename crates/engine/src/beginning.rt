ghost use Rattle.std.specs.Prelude.{◌≡◌};
ghost use Rattle.std.specs.Prelude.{Ok as value};
ghost use Rattle.battery.specs.declared.value.Value.TheVariants.{Unit as unit_v};
ghost use Rattle.frames.specs.declared.data.Stage.TheVariants.{Ended};
ghost use Rattle.cells.specs.Meaning.{values_of};
ghost use Rattle.engine.specs.Begun.{Begun};

use battery::Value;
use cells::Values;
use frames::{Frame, Job, Judgement, Run, Stack, Stage};
use program::Program;
use scope::{Entry, bind_all};
use stores::Store;

// A run that has not begun, over a store.
pub fn idle<S: Store>(store: S) -> Run<S>
    ensures over { result.store ≡ store }
    ensures ended { result.stage ≡ Ended (value unit_v) }
    ensures unspent { result.units ≡ 0 }
    ensures closed { result.stack.count ≡ 0 }
{
    Run {
        stack: Stack {
            frames: [Frame::Passes; 256],
            count: 0,
        },
        entries: [Entry::default(); 1028],
        stage: Stage::Ended(Ok(Value::Unit)),
        units: 0,
        store,
    }
}

// Why a run is not begun.
#[derive(Clone, Copy, PartialEq, Debug)]
pub enum NotBegun {
    // The card has no such function.
    NoFunction,
    // The function takes another count of arguments.
    OtherCount,
}

// Begins a run of a function on its arguments; where it does not, nothing has changed.
pub fn begin<S: Store>(
    program: &Program,
    run: &mut Run<S>,
    f: u16,
    args: &Values,
) -> Result<(), NotBegun>
    ensures { Begun S.Store.cells (S.Store.limit run.old.store) program.now run.old run.new f (values_of args.now) result }
{
    let function = program.function(f).ok_or(NotBegun::NoFunction)?;
    let values = args.as_slice();
    if values.len() != function.parameters as usize {
        return Err(NotBegun::OtherCount);
    }
    // There is room for more entries than a function has parameters.
    let _ = bind_all(&mut run.entries, 0, 0, values);
    run.stack.clear();
    run.units = 0;
    run.stage = Stage::Going(Judgement::Of(Job {
        at: function.body,
        base: 0,
        height: values.len() as u16,
    }));
    Ok(())
}
