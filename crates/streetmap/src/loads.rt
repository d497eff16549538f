//! A load of any number of features.
ghost use Rattle.std.specs.Prelude.{◌≡◌, ◌||◌, None, IsOk, IfOk};
ghost use Rattle.streetmap_ledger.specs.State.{State};
ghost use Rattle.streetmap_loading.specs.Options.{load_value, load_items, load_skips};
ghost use Rattle.streetmap.specs.Changes.{HoldOneOf, Loaded as LoadLeaves, LoadedUnless};
ghost use Rattle.streetmap.specs.Changes.{SkipsNone};
ghost use Rattle.streetmap.specs.Kept.{IsKept};

use crate::progress::{Pace, ProgressOutput};
use crate::{fault, progress};
use std::fs::File;
use std::io::{BufReader, IsTerminal, Read, Stderr, Write, writer};
use streetmap_command::LoadArguments;
use streetmap_decimal::{Rounding, Scale, Shift};
use streetmap_faults::ProgramFault;
use streetmap_ledger::{Durable, Keeper};
use streetmap_loading::{
    HeldTimes, KeeperSink, LineSink, Listener, Load, LoadFault, LoadOptions, Loaded, Opening,
    TextFault, check_text, load_text, print_text, read_times,
};
use streetmap_placing::{Fractions, Numbers};

/// The hint on coordinates that may be degrees.
const DEGREES: &str = "All coordinates lie within 360 of 0: are they degrees? \
    Streetmap wants metres or so; see --scale.";

/// What a load in progress reports to: lines on standard error.
#[derive(Drop)]
struct LoadLines<'a, W> {
    rt: &'a HostRuntime,
    pace: Pace,
    /// Where lines of features at fault go.
    faults: W,
    /// Where lines of progress go, if they are written.
    progress: Option<ProgressOutput<W>>,
}

impl<'a> LoadLines<'a, Stderr> {
    /// Lines on standard error; those of progress if they are requested, or if it is a terminal.
    fn new(rt: &'a HostRuntime, requested: LoadArguments<'_>) -> LoadLines<'a, Stderr> {
        LoadLines {
            rt,
            pace: Pace::new(rt, requested.text),
            faults: rt.stderr(),
            progress: progress::output(rt, requested.progress, requested.print),
        }
    }
}

impl<W: Write> Listener for LoadLines<'_, W> {
    /// A line that cannot be written is left out.
    fn reached(&mut self, features: u64, bytes: u64) {
        if features % 1000 == 0 {
            if let Some(output) = &mut self.progress {
                self.pace.report(self.rt, output, features, bytes);
            }
        }
    }

    /// A line that cannot be written is left out.
    fn passed_over(&mut self, fault: TextFault) {
        let fault = ProgramFault::Load(LoadFault::AtFault(fault));
        if let Some(output) = &mut self.progress {
            output.clear();
        }
        let _ = writeln!(self.faults, "{fault}");
    }
}

/// The requested scale of a map.
fn scale_of(requested: LoadArguments<'_>) -> Result<Option<Scale>, ProgramFault> {
    match requested.scale {
        Some(text) => match Scale::read(text.as_bytes()) {
            Some(scale) => Ok(Some(scale)),
            None => Err(ProgramFault::Usage),
        },
        None => Ok(None),
    }
}

/// The requested shift of a map.
fn shift_of(requested: LoadArguments<'_>) -> Result<Option<Shift>, ProgramFault> {
    match requested.shift {
        Some(text) => match Shift::read(text.as_bytes()) {
            Some(shift) => Ok(Some(shift)),
            None => Err(ProgramFault::Usage),
        },
        None => Ok(None),
    }
}

/// How the numbers of features are to be read. A scale that is not a number above 0, and a shift
/// that is not two numbers, are usage faults.
pub(crate) fn numbers_of(requested: LoadArguments<'_>) -> Result<Numbers, ProgramFault> {
    let rounding = if requested.rounds {
        Rounding::Nearest
    } else {
        Rounding::Exact
    };
    let fractions = if requested.keeps_fractions {
        Fractions::Text
    } else {
        Fractions::Number
    };
    Ok(Numbers::new(
        scale_of(requested)?,
        shift_of(requested)?,
        rounding,
        fractions,
    ))
}

/// The requested load.
pub(crate) fn read(
    rt: &HostRuntime,
    requested: LoadArguments<'_>,
    numbers: Numbers,
) -> Result<Load, ProgramFault> {
    let opening = if requested.opens {
        Some(Opening {
            title: requested.title,
            time: requested.time,
        })
    } else {
        None
    };
    let options = LoadOptions {
        key: requested.key,
        each: requested.each as usize,
        collection: requested.collection,
        replace: requested.replace,
        numbers,
        opening,
    };
    Load::new(rt.alloc(), options).map_err(ProgramFault::Load)
}

/// The property of the times of the collection that is opened.
fn opened_times(rt: &HostRuntime, requested: LoadArguments<'_>) -> Result<HeldTimes, ProgramFault> {
    let property = match requested.time {
        Some(name) => Some(String::from_str(rt.alloc(), name)?),
        None => None,
    };
    Ok(HeldTimes { property })
}

/// The property that times of features must satisfy if faults are skipped: that of the opening, or
/// of the collection that exists.
fn times_of<K: Keeper>(
    rt: &HostRuntime,
    sink: &mut KeeperSink<K>,
    requested: LoadArguments<'_>,
) -> Result<HeldTimes, ProgramFault>
    ensures { IsKept K.model sink.old.keeper sink.new.keeper (IsOk result) }
{
    if requested.opens {
        return opened_times(rt, requested);
    }
    match read_times(sink, requested.collection) {
        Ok(times) => Ok(times),
        Err(fault) => Err(ProgramFault::Load(LoadFault::Stopped(fault))),
    }
}

/// Whether the features of a collection have coordinates, and all lie within 360 of 0.
fn lies_near_zero<K: Keeper>(keeper: &mut K, collection: &str) -> bool
    ensures { IsKept K.model keeper.old keeper.new ⊥ }
{
    match keeper.collection(collection) {
        Ok(Some(summary)) => summary.extent.is_some_and(|extent| {
            -360 <= extent.x0 && -360 <= extent.y0 && extent.x1 <= 360 && extent.y1 <= 360
        }),
        _ => false,
    }
}

/// Hints that the coordinates of a collection that was loaded without a scale may be degrees, if
/// sentences or progress are requested, or if standard error is a terminal.
fn warn_of_degrees<K: Keeper>(rt: &HostRuntime, keeper: &mut K, requested: LoadArguments<'_>)
    ensures { IsKept K.model keeper.old keeper.new ⊥ }
{
    let is_wanted = requested.explains || requested.progress || rt.stderr().is_terminal();
    if !is_wanted || requested.scale.is_some() {
        return;
    }
    if lies_near_zero(keeper, requested.collection) {
        let _ = eprintln!(rt; "{DEGREES}");
    }
}

/// Prints how much was loaded, unless the text is only checked or printed.
fn print_loaded(
    rt: &HostRuntime,
    requested: LoadArguments<'_>,
    loaded: Loaded,
) -> Result<(), ProgramFault> {
    if requested.check || requested.print {
        return Ok(());
    }
    let features = loaded.taken.saturating_sub(requested.opens as u64);
    let (batches, serial) = (loaded.batches, loaded.serial.unwrap_or(0));
    println!(rt; "{{\"batches\":{batches},\"features\":{features},\"serial\":{serial}}}").map_err(
        |_| ProgramFault::WriteFailed,
    )
}

/// Prints the result of a load if it reached its end, and returns whether features were skipped;
/// else returns why it ended before.
fn end(rt: &HostRuntime, requested: LoadArguments<'_>, loaded: Loaded) -> Result<(), ProgramFault>
    ensures whole { IsOk result → loaded.fault ≡ None }
    ensures none_skipped { IsOk result → loaded.skipped ≡ 0 }
{
    if let Some(mut output) = progress::output(rt, requested.progress, requested.print) {
        output.clear();
    }
    match loaded.fault {
        None => match print_loaded(rt, requested, loaded) {
            Ok(()) if loaded.skipped == 0 => Ok(()),
            Ok(()) => Err(ProgramFault::PassedOver),
            Err(fault) => Err(fault),
        },
        Some(fault) => Err(ProgramFault::Load(fault)),
    }
}

/// Prints the batches of the features of an input.
fn print_from<R: Read + Drop>(
    rt: &HostRuntime,
    input: R,
    load: Load,
    requested: LoadArguments<'_>,
) -> Result<(), ProgramFault>
    ensures { IsOk result → SkipsNone (load_skips (load_value load) (R.remaining input)) }
{
    let Ok(reader) = BufReader::new(rt.alloc(), input) else {
        return Err(ProgramFault::Memory);
    };
    let mut sink = LineSink {
        alloc: rt.alloc(),
        writer: writer(rt),
    };
    let loaded = print_text(
        rt.alloc(),
        &mut sink,
        reader,
        load,
        LoadLines::new(rt, requested),
    );
    end(rt, requested, loaded)
}

/// Reads the features of an input as a load does, and loads nothing.
fn check_from<R: Read + Drop>(
    rt: &HostRuntime,
    input: R,
    load: Load,
    requested: LoadArguments<'_>,
) -> Result<(), ProgramFault>
    ensures { IsOk result → SkipsNone (load_skips (load_value load) (R.remaining input)) }
{
    let Ok(reader) = BufReader::new(rt.alloc(), input) else {
        return Err(ProgramFault::Memory);
    };
    let loaded = check_text(rt.alloc(), reader, load, LoadLines::new(rt, requested));
    end(rt, requested, loaded)
}

/// Loads the features of an input into a keeper.
fn load_from<K: Durable, R: Read + Drop>(
    rt: &HostRuntime,
    sink: &mut KeeperSink<K>,
    input: R,
    load: Load,
    requested: LoadArguments<'_>,
) -> Result<(), ProgramFault>
    ensures leaves { K.model.is_clean sink.new.keeper → (s : State) →
        K.model.represents sink.old.keeper s →
        HoldOneOf K.holds (K.leaves sink.new.keeper) (LoadLeaves s load.each (load_value load).key
        (load_items (load_value load) (R.remaining input)) result) }
    ensures none_skipped { IsOk result →
        SkipsNone (load_skips (load_value load) (R.remaining input)) }
    ensures began_clean { K.model.is_clean sink.new.keeper → K.model.is_clean sink.old.keeper }
{
    let Ok(reader) = BufReader::new(rt.alloc(), input) else {
        return Err(ProgramFault::Memory);
    };
    let loaded = load_text(
        rt.alloc(),
        sink,
        reader,
        load,
        LoadLines::new(rt, requested),
    );
    let done = end(rt, requested, loaded);
    if loaded.fault.is_none() {
        warn_of_degrees(rt, &mut sink.keeper, requested);
    }
    done
}

/// Loads, checks or prints the features of an input, as requested.
fn send<K: Durable, R: Read + Drop>(
    rt: &HostRuntime,
    sink: &mut KeeperSink<K>,
    input: R,
    load: Load,
    requested: LoadArguments<'_>,
) -> Result<(), ProgramFault>
    ensures leaves { K.model.is_clean sink.new.keeper → (s : State) →
        K.model.represents sink.old.keeper s → HoldOneOf K.holds (K.leaves sink.new.keeper)
        (LoadedUnless (requested.entry.check || requested.entry.print) s load.each
        (load_value load).key
        (load_items (load_value load) (R.remaining input)) result) }
    ensures none_skipped { IsOk result →
        SkipsNone (load_skips (load_value load) (R.remaining input)) }
    ensures began_clean { K.model.is_clean sink.new.keeper → K.model.is_clean sink.old.keeper }
{
    if requested.print {
        print_from(rt, input, load, requested)
    } else if requested.check {
        check_from(rt, input, load, requested)
    } else {
        load_from(rt, sink, input, load, requested)
    }
}

/// The requested load: if features at fault are skipped, times must satisfy the property of
/// the collection.
fn skipping<K: Keeper>(
    rt: &HostRuntime,
    sink: &mut KeeperSink<K>,
    load: Load,
    requested: LoadArguments<'_>,
) -> Result<Load, ProgramFault>
    ensures kept { IsKept K.model sink.old.keeper sink.new.keeper (IsOk result) }
    ensures each { IfOk result (λ it. it.each ≡ load.each) }
    ensures key { IfOk result (λ it. (load_value it).key ≡ (load_value load).key) }
{
    if !requested.skip && !requested.check {
        return Ok(load);
    }
    match times_of(rt, sink, requested) {
        Ok(times) => Ok(load.skipping(times)),
        Err(fault) => Err(fault),
    }
}

/// Loads, checks or prints the features of a text, or of standard input.
fn send_text<K: Durable>(
    rt: &HostRuntime,
    sink: &mut KeeperSink<K>,
    load: Load,
    requested: LoadArguments<'_>,
) -> Result<(), ProgramFault>
    // The content of the text is not known here.
    ensures leaves { K.model.is_clean sink.new.keeper → (s : State) →
        K.model.represents sink.old.keeper s → HoldOneOf K.holds (K.leaves sink.new.keeper)
        (LoadedUnless (requested.entry.check || requested.entry.print) s load.each
        (load_value load).key
        None result) }
    ensures began_clean { K.model.is_clean sink.new.keeper → K.model.is_clean sink.old.keeper }
{
    let Some(path) = requested.text else {
        return send(rt, sink, rt.reader(), load, requested);
    };
    match File::open(rt, path) {
        Ok(file) => send(rt, sink, file, load, requested),
        Err(error) => Err(fault::of_text(&error)),
    }
}

/// Loads the features of a text, or of standard input, into a keeper, as requested.
pub(crate) fn run<K: Durable>(
    rt: &HostRuntime,
    sink: &mut KeeperSink<K>,
    load: Load,
    requested: LoadArguments<'_>,
) -> Result<(), ProgramFault>
    ensures leaves { K.model.is_clean sink.new.keeper → (s : State) →
        K.model.represents sink.old.keeper s → HoldOneOf K.holds (K.leaves sink.new.keeper)
        (LoadedUnless (requested.entry.check || requested.entry.print) s load.each
        (load_value load).key
        None result) }
    ensures began_clean { K.model.is_clean sink.new.keeper → K.model.is_clean sink.old.keeper }
{
    match skipping(rt, sink, load, requested) {
        Ok(load) => send_text(rt, sink, load, requested),
        Err(fault) => Err(fault),
    }
}

/// Prints the batches of the features of a text, or of standard input, without a file.
pub(crate) fn print(
    rt: &HostRuntime,
    load: Load,
    requested: LoadArguments<'_>,
) -> Result<(), ProgramFault> {
    let mut load = load;
    if requested.skip {
        load = load.skipping(opened_times(rt, requested)?);
    }
    let Some(path) = requested.text else {
        return print_from(rt, rt.reader(), load, requested);
    };
    match File::open(rt, path) {
        Ok(file) => print_from(rt, file, load, requested),
        Err(error) => Err(fault::of_text(&error)),
    }
}
