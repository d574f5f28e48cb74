// The default show of a theatre unit: a layout of eleven outputs, four seconds of it, a second layout that adopts its nodes, and its cue sheet. A call
// that is refused, and is not shown as such, ends the program with a line that says so.
#![tactic(auto)]

mod areas;
mod build;
mod buses;
mod inserts;
mod layout;
mod names;
mod overview;
mod refused;
mod runs;
mod second;
mod settings;
mod sheet;
mod stand_in;
mod steps;
mod strips;

use areas::Areas;
use refusal::Answer;
use refused::Why;

fn show() -> Answer {
    text::print("Sezhqolma: the default show of a theatre unit\n");
    overview::tables();
    let mut areas = Areas::new();
    build::laid_out(&mut areas)?;
    overview::counts(areas.plan, areas.clean()?);
    overview::run();
    let digests = runs::blocks(&mut areas)?;
    second::adopts(&areas)?;
    sheet::rows(&digests, &areas)
}

// The end of the program: nothing above takes the refusal.
fn main() {
    if let Err(r) = show() {
        let why = Why(r);
        text::print(format_args!("\nThe show has stopped: {why}\n"));
    }
}
