//! The lines that the command puts on the error output.
ghost use Rattle.std.specs.Prelude.{◌≡◌, ◌<◌, ◌^◌, None, Some};
ghost use Rattle.machine_state.specs.declared.kinds.GuestEnd.{GuestEnd as End};
ghost use Rattle.xemu_top.specs.Lines.{words_line as words_line_of, image_line as image_line_of, start_line as start_line_of, report_line as report_line_of, refusal_line as refusal_line_of, report as report_if};

use crate::ends::End as CommandEnd;
use command_words::WordFault;
use elf_image::ImageFault;
use line_text::Line;
use machine_state::GuestEnd;
use start_stack::TooLong;

/// `xemu: words W K`.
#[tactic(auto, unfolding(crate::specs::Lines::words_line), using(line_text::proofs::Room::decimal_short))]
fn words_line(fault: WordFault) -> Line
    ensures { result ≡ words_line_of fault }
{
    let mut line = Line::new();
    line.text("xemu: words ");
    line.dec(u64::from(fault.word));
    line.text(" ");
    line.dec(u64::from(fault.kind));
    line.text("\n");
    line
}

/// `xemu: image K at P`.
#[tactic(auto, unfolding(crate::specs::Lines::image_line), using(line_text::proofs::Room::decimal_short))]
fn image_line(fault: ImageFault) -> Line
    ensures { result ≡ image_line_of fault }
{
    let mut line = Line::new();
    line.text("xemu: image ");
    line.dec(u64::from(fault.number));
    line.text(" at ");
    line.dec(fault.place);
    line.text("\n");
    line
}

/// `xemu: start S`.
#[tactic(auto, unfolding(crate::specs::Lines::start_line), using(line_text::proofs::Room::decimal_short))]
fn start_line(fault: TooLong) -> Line
    ensures { result ≡ start_line_of fault }
{
    let mut line = Line::new();
    line.text("xemu: start ");
    line.dec(fault.size);
    line.text("\n");
    line
}

/// `xemu: exit C steps S` or `xemu: killed N steps S`.
#[tactic(auto, unfolding(crate::specs::Lines::report_line), using(line_text::proofs::Room::decimal_short))]
fn end_line(end: GuestEnd, steps: u64) -> Line
    ensures { result ≡ report_line_of (Some end) steps }
{
    let mut line = Line::new();
    let number = match end {
        GuestEnd::Exit(code) => {
            line.text("xemu: exit ");
            code
        }
        GuestEnd::Killed(signal) => {
            line.text("xemu: killed ");
            signal
        }
    };
    line.dec(u64::from(number));
    line.text(" steps ");
    line.dec(steps);
    line.text("\n");
    line
}

/// `xemu: budget S`.
#[tactic(auto, unfolding(crate::specs::Lines::report_line), using(line_text::proofs::Room::decimal_short))]
fn budget_line(steps: u64) -> Line
    ensures { result ≡ report_line_of None steps }
{
    let mut line = Line::new();
    line.text("xemu: budget ");
    line.dec(steps);
    line.text("\n");
    line
}

/// The line that says an end, where one does so.
pub(crate) fn refusal_line(end: CommandEnd) -> Option<Line>
    ensures { result ≡ refusal_line_of end }
{
    match end {
        CommandEnd::Words(fault) => Some(words_line(fault)),
        CommandEnd::Image(fault) => Some(image_line(fault)),
        CommandEnd::Start(fault) => Some(start_line(fault)),
        CommandEnd::Exit(_)
        | CommandEnd::Killed(_)
        | CommandEnd::Budget
        | CommandEnd::Host(_)
        | CommandEnd::Memory => None,
    }
}

/// The report of a run: how the guest ended, if it did, and after how many steps.
fn report_line(end: Option<GuestEnd>, steps: u64) -> Line
    ensures { result ≡ report_line_of end steps }
{
    match end {
        Some(end) => end_line(end, steps),
        None => budget_line(steps),
    }
}

/// The same, where it is wanted.
pub(crate) fn report(wanted: bool, end: Option<GuestEnd>, steps: u64) -> Option<Line>
    ensures { result ≡ report_if wanted end steps }
{
    if wanted {
        Some(report_line(end, steps))
    } else {
        None
    }
}
