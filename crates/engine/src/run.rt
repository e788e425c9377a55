ghost use Rattle.std.specs.Prelude.{◌≡◌, ℕ, ◌<◌, false, Some};
ghost use Rattle.machine.specs.Machine.{begin, step, turn};
ghost use Rattle.program.specs.declared.program.Program.{Program};
ghost use Rattle.frames.specs.Trees.{setup, firsts, first_at};
ghost use Rattle.frames.specs.Stacks.{Room, held, waiting_in};
ghost use Rattle.frames.specs.declared.data.Wait.{Wait};
ghost use Rattle.frames.specs.declared.data.Stage.TheVariants.{Going};
ghost use Rattle.frames.specs.Views.{judgement as judged};
ghost use Rattle.frames.specs.Views.{AtRest, Carries, Did, Handed, JudgementOk, Ok, Opening, Ready, Rounded, Sound, arrival, carry, frames, view};

use battery::{Stop, Value};
use cells::Values;
use constructs::{compare, rule};
use frames::{Frame, Given, Job, Judgement, Move, Part, Run, Stage, Verdict, Wait};
use program::Program;
use stores::Store;
use table::{Head, Pair};

// A judgement is to be opened, unless all units are spent. The stage is written where it lies: one
// that is handed over was written byte by byte.
fn arrive(stage: &mut Stage, units: u32, judgement: Judgement)
    ensures { stage.new ≡ arrival units judgement }
{
    if units >= 1_000_000 {
        *stage = Stage::Ended(Err(Stop::Overrun(judgement.at())));
    } else {
        *stage = Stage::Going(judgement);
    }
}

// Gives a value to the open frames, and says whether the newest goes on.
fn hand<S: Store>(run: &mut Run<S>, v: Value) -> bool
    requires { Room (held run.old.stack) }
    ensures store { run.new.store ≡ run.old.store }
    ensures does { (k : Program) (most h : ℕ) → Ok k (held run.old.stack) h → Handed S.Store.cells k (setup k most) run.old run.new v result }
{
    match run.stack.give(v) {
        Given::Goes => true,
        Given::Done => {
            run.stage = Stage::Ended(Ok(v));
            false
        }
        Given::Halts(at) => {
            run.stage = Stage::Stuck(at);
            false
        }
    }
}

// What the rule of the newest frame does.
fn apply<S: Store>(program: &Program, run: &mut Run<S>) -> Option<Move>
    requires { (w : Wait) → waiting_in (held run.old.stack) ≡ Some w → Ready program.now w }
    ensures most { S.Store.limit run.new.store ≡ S.Store.limit run.old.store }
    ensures does { (w : Wait) → waiting_in (held run.old.stack) ≡ Some w → Did program.now (S.Store.limit run.old.store) w run.old.entries run.new.entries (S.Store.cells run.old.store) (S.Store.cells run.new.store) result }
    ensures frames { run.new.stack ≡ run.old.stack }
    ensures units { run.new.units ≡ run.old.units }
{
    let wait = run.stack.waiting()?;
    rule(program, &mut run.entries, wait, &mut run.store)
}

// The newest frame goes on by one part, or by its rule.
fn round<S: Store>(program: &Program, run: &mut Run<S>) -> bool
    requires { Carries program.now (held run.old.stack) }
    ensures most { S.Store.limit run.new.store ≡ S.Store.limit run.old.store }
    ensures does { Rounded S.Store.cells S.Store.limit program.now run.old run.new result }
{
    match run.stack.part(program) {
        Some(Part::Next(judgement)) => {
            arrive(&mut run.stage, run.units, judgement);
            false
        }
        Some(Part::Whole(at)) => match apply(program, run) {
            Some(Move::Gives(v)) => {
                run.stack.pop();
                hand(run, v)
            }
            Some(Move::Stops(stop)) => {
                run.stage = Stage::Ended(Err(stop));
                false
            }
            Some(Move::Goes(judgement)) => {
                run.stack.pass();
                arrive(&mut run.stage, run.units, judgement);
                false
            }
            None => {
                run.stage = Stage::Stuck(at);
                false
            }
        },
        Some(Part::Equal) => {
            run.stack.pop();
            hand(run, Value::Boolean(true))
        }
        None => {
            run.stage = Stage::Stuck(0);
            false
        }
    }
}

// The newest frame goes on until a judgement is to be opened, or the run has ended.
fn settle<S: Store>(program: &Program, run: &mut Run<S>)
    requires { Carries program.now (held run.old.stack) }
    ensures most { S.Store.limit run.new.store ≡ S.Store.limit run.old.store }
    ensures does { view S.Store.cells program.now run.new ≡ carry program.now (setup program.now (S.Store.limit run.old.store)) run.old.entries (held run.old.stack) run.old.units (S.Store.cells run.old.store) }
    ensures sound { Sound program.now run.new }
{
    while round(program, run) {}
}

// How many parts are evaluated first.
fn first_parts(head: Option<Head>) -> u8
    ensures { result ≡ firsts head }
{
    match head {
        Some(Head::Pair(Pair::Seq | Pair::Val(_)) | Head::If | Head::Match | Head::Exit) => 1,
        Some(Head::Pair(_)) => 2,
        Some(Head::Many(n, _)) => n,
        Some(Head::Leaf(_)) | None => 0,
    }
}

// Where the first of them stands: behind the record, and behind the TYPE of an EXIT.
fn first_place(at: u16, head: Option<Head>) -> u16
    requires { at < 512 }
    ensures { result ≡ first_at at head }
{
    match head {
        Some(Head::Exit) => at + 2,
        _ => at + 1,
    }
}

// The frame of a judgement that is opened.
fn opened(program: &Program, job: Job) -> Wait
    requires { job.at < 512 }
    ensures { Opening program.now job result }
{
    let head = program.head(job.at);
    Wait {
        job,
        next: first_place(job.at, head),
        left: first_parts(head),
        values: Values::new(),
    }
}

// A judgement that was just opened goes on.
fn enter<S: Store>(program: &Program, run: &mut Run<S>, judgement: Judgement)
    requires ok { JudgementOk program.now (held run.old.stack) judgement }
    requires shallow { run.old.stack.count < 256 }
    ensures most { S.Store.limit run.new.store ≡ S.Store.limit run.old.store }
    ensures does { view S.Store.cells program.now run.new ≡ begin (setup program.now (S.Store.limit run.old.store)) (judged program.now run.old.entries judgement) (frames program.now run.old.entries (held run.old.stack)) run.old.units (S.Store.cells run.old.store) }
    ensures sound { Sound program.now run.new }
{
    match judgement {
        Judgement::Of(job) => {
            run.stack.push(Frame::Waits(opened(program, job)));
            settle(program, run);
        }
        Judgement::Same(pair) => match compare(&run.store, pair) {
            Some(Verdict::Is(b)) => {
                if hand(run, Value::Boolean(b)) {
                    settle(program, run);
                }
            }
            Some(Verdict::Fields(pairs)) => {
                run.stack.push(Frame::Compares(pairs));
                settle(program, run);
            }
            None => run.stage = Stage::Stuck(pair.at),
        },
    }
}

// Opens a judgement.
fn open<S: Store>(program: &Program, run: &mut Run<S>, judgement: Judgement)
    requires sound { Sound program.now run.old }
    requires going { run.old.stage ≡ Going judgement }
    ensures most { S.Store.limit run.new.store ≡ S.Store.limit run.old.store }
    ensures does { view S.Store.cells program.now run.new ≡ step (setup program.now (S.Store.limit run.old.store)) (view S.Store.cells program.now run.old) }
    ensures sound { Sound program.now run.new }
{
    run.units += 1; // also where it is too deep
    if run.stack.count == 256 {
        run.stage = Stage::Ended(Err(Stop::TooDeep(judgement.at())));
        return;
    }
    enter(program, run, judgement);
}

// Opens what is to be opened, and says whether there was any.
fn step_once<S: Store>(program: &Program, run: &mut Run<S>) -> bool
    requires { Sound program.now run.old }
    ensures most { S.Store.limit run.new.store ≡ S.Store.limit run.old.store }
    ensures does { view S.Store.cells program.now run.new ≡ step (setup program.now (S.Store.limit run.old.store)) (view S.Store.cells program.now run.old) }
    ensures sound { Sound program.now run.new }
    ensures rest { result ≡ false → AtRest run.new.stage }
{
    match run.stage {
        Stage::Going(judgement) => {
            open(program, run, judgement);
            true
        }
        Stage::Ended(_) | Stage::Stuck(_) => false,
    }
}

// A turn of so many units. The program and the run have owners of their own, so no struct holds both.
pub fn advance<S: Store>(program: &Program, run: &mut Run<S>, units: u16)
    requires { Sound program.now run.old }
    ensures most { S.Store.limit run.new.store ≡ S.Store.limit run.old.store }
    ensures does { view S.Store.cells program.now run.new ≡ turn (setup program.now (S.Store.limit run.old.store)) units (view S.Store.cells program.now run.old) }
    ensures sound { Sound program.now run.new }
{
    for _ in 0..units {
        if !step_once(program, run) {
            return;
        }
    }
}
