// Which of the commands runs, and how the program ends.
use command_line::{Asked, read};
use files::load::front;
use helping::{help_word, no_such_command, say_help, say_usage, say_version, wrong_word};
use options::command::Command;
use options::given::Given;
use saying::status::Status;
use saying::trouble;
use std::os::fd::{AsRawFd, IntoRawFd};
use system::named::opened;
use system::output::settled;
use system::words::{word as word_at, word_count};

// Gives standard input, output and error a number each where they are closed, so that no file that is opened later gets
// it: what is said to people would end up there.
fn stand(rt: &HostRuntime) {
    for _ in 0..3 {
        if let Ok(file) = opened(rt, b"/") {
            if file.as_raw_fd() > 2 {
                return;
            }
            // stays open as long as the program runs
            file.into_raw_fd();
        }
    }
}

fn run_given(rt: &HostRuntime, command: Command, g: &Given) -> Result<(), Status> {
    match command {
        Command::Cut => commands::cutting::run(rt, g),
        Command::Show => commands::reading::run(rt, g),
        Command::Store => commands::storing::run(rt, g),
        Command::Fetch => commands::fetching::run(rt, g),
        Command::Join => joins::joining::run(rt, g),
        Command::Compare => trays::comparing::run(rt, g),
        Command::MoveCut => moves::cutting::run(rt, g),
        Command::MoveWeigh => moves::gathering::run(rt, g),
        Command::MoveCheck => checks::run(rt, g),
    }
}

fn run_command(rt: &HostRuntime, command: Command) -> Result<(), Status> {
    match read(rt, command)? {
        Asked::Help => say_help(rt, command),
        Asked::Run(g) => run_given(rt, command, &g),
    }
}

fn run_word(rt: &HostRuntime, word: &[u8]) -> Result<(), Status> {
    match word {
        b"--version" => say_version(rt),
        b"help" | b"--help" => help_word(rt),
        _ => match Command::of(word) {
            Some(command) => run_command(rt, command),
            None => Err(no_such_command(rt, word)),
        },
    }
}

fn run(rt: &HostRuntime) -> Result<(), Status> {
    if word_count(rt) < 2 {
        return Err(say_usage(rt));
    }
    let mut room = io::buffer();
    match word_at(rt, 1, &mut room) {
        Some(word) => run_word(rt, word),
        None => Err(wrong_word(
            rt,
            front(64, &room),
            b"begins a word of more than 4096 bytes",
        )),
    }
}

// The whole program. A file system may say only at the end that it had no room for what was said.
pub fn csalgodes_run(rt: &HostRuntime) -> Result<(), Status> {
    stand(rt);
    let outcome = run(rt);
    match settled(rt) {
        Err(error) if outcome != Err(Status::Misused) => {
            Err(trouble(rt, b"standard output", b"cannot be written", error))
        }
        _ => outcome,
    }
}
