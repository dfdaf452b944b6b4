// How the program is used, in words.
#![tactic(auto)]

use options::command::Command;
use saving::save::said;
use saying::line::Line;
use saying::status::Status;
use system::output::Stream;
use system::words::{word as word_at, word_count};

const USAGE: &str = "\
csalgodes: a signing key as letters, one for each of N keepers, that come back
right or not at all.

  csalgodes cut     --order T,F,N --key K --stamp S SECRET FOLDER
  csalgodes show    LETTER
  csalgodes store   --order T,F,N --key K --keeper X DESK LETTER
  csalgodes fetch   --order T,F,N --key K --keeper X [--replace] DESK LETTER
  csalgodes join    --order T,F,N --key K [--stamp S --length L] [--replace]
                    TRAY SECRET
  csalgodes compare --order T,F,N BEFORE AFTER
  csalgodes move-cut   --from T,F,N --order T,F,N --key K --length L --stamp S
                       --keeper X LETTER FOLDER
  csalgodes move-weigh --from T,F,N --order T,F,N --key K --length L --stamp S
                       --keepers A,B,.. --keeper Y [--replace] FOLDER LETTER
  csalgodes move-check --from T,F,N --order T,F,N --key K OLD NEW
  csalgodes help [COMMAND]
  csalgodes --version

T,F,N is the order, as 2,1,8: any T keepers together learn nothing of the key,
up to F may lie, there are N keepers. T is 1 to 7, F 0 to T, N from T+4F+1 to
16. K is the number of the key, 0 to 255, by which letters of one key are told
from those of another; S the stamp, 1 or more, greater for each new cut; X the
number of a keeper, 1 to N; L how many bytes the key has. A move takes the key
from the keepers of one order, --from, to those of another, and no host has it.

A letter is a file of 2048 bytes, and so is the desk of a keeper. A tray is a
folder of letters named 1 .. N after their keepers. - is standard input or
output where a SECRET or a LETTER goes. -- ends the options.

The status is the number that the library answers, 0 where all is well; 99
where trays or keys differ; 100 is trouble with a file, 101 a wrong word.
";

const CUT: &str = "\
csalgodes cut --order T,F,N --key K --stamp S SECRET FOLDER

Cuts SECRET, a file of 1 to 952 bytes or - for standard input, into a letter
for each keeper: the files 1 .. N in FOLDER. FOLDER must not be there yet, or
be empty; it gets all letters at once, or none where something fails. Nobody
but you can read it. Take the same K for all cuts of one key and for no other,
and a greater S for each new cut.

All letters in one folder are as good as the key: bring each to its keeper,
and remove the folder. A cut that was killed may leave FOLDER.new behind, with
letters in it: remove that too.
";

const SHOW: &str = "\
csalgodes show LETTER

Says what LETTER is of, a file or - for standard input:

  order 2,1,8 key 100 keeper 3 stamp 2 length 32

A letter that is damaged, or is none, is answered by its number, 9 to 13, or 4
where it has not 2048 bytes.
";

const STORE: &str = "\
csalgodes store --order T,F,N --key K --keeper X DESK LETTER

Offers LETTER, a file or - for standard input, to the desk of keeper X: the
file DESK, which is made where it is not there. The desk keeps the letter with
the greatest stamp. An older letter is answered 14, another one of the same
stamp 15, one of another order, key or keeper 16, and the desk stays as it is.
Tell a desk always the same order, key and keeper: a letter of others that it
holds counts as none, and is replaced.

While it works it holds DESK.lock. A second store waits up to five seconds.
Whatever is killed, the desk is the old letter or the new one; DESK.lock and
DESK.new-XXXXXX may stay: remove them where no store is at work.
";

const FETCH: &str = "\
csalgodes fetch --order T,F,N --key K --keeper X [--replace] DESK LETTER

Hands out the letter that keeper X's desk holds: into the file LETTER, or to
standard output for -. A desk that holds nothing good, or is not there, is
answered 17. A file LETTER that is there stays, unless --replace is said.
";

const JOIN: &str = "\
csalgodes join --order T,F,N --key K [--stamp S --length L] [--replace]
               TRAY SECRET

Joins the letters in the folder TRAY, named 1 .. N, to the secret: into the
file SECRET, or to standard output for -. It takes the newest stamp that joins,
or just S and L where both are said. A slot that is missing, of another size,
no plain file or unreadable counts as empty. A file SECRET that is there
stays, unless --replace is said.

It says how each keeper stands (agrees, differs, present, absent), how many
letters were usable, needed and agreed, the answer, and in how many trials a
hunt for a set of T+1 good letters would find one. Where a keeper has a newer
letter than the one joined, that is said too: ask more keepers before you take
an older key. Where SECRET is - all this goes to standard error.
";

const COMPARE: &str = "\
csalgodes compare --order T,F,N BEFORE AFTER

Says which words differ between the slots 1 .. N of two folders, a line each:

  slot 6 block 0 word 9: 2 became 3

No letter is read, so damage is seen too. It ends with 0 where no word differs
and with 99 where one does. The words are of letters: keep what it prints as
you keep the letters.
";

const MOVE_CUT: &str = "\
csalgodes move-cut --from T,F,N --order T,F,N --key K --length L --stamp S
                   --keeper X LETTER FOLDER

The old keeper X cuts its letter anew, for the keepers of a new order. LETTER,
a file or - for standard input, is its letter of the old order, --from, of key
K and of L bytes. FOLDER gets a sub-letter for each keeper of the new order,
--order: the files 1 .. N. FOLDER must not be there yet, or be empty; it gets
all of them at once, or none where something fails. Nobody but you can read
it. S is the stamp of the new letters, the same at all old keepers; one that
is not above LETTER's is answered 20. A letter of another order, key, keeper
or length is answered 16.

Cut once for a move: sub-letters of a second cut do not go with the first. All
sub-letters in one folder are as good as LETTER: bring each to its new keeper,
and remove the folder. A move-cut that was killed may leave FOLDER.new behind:
remove that too. LETTER stays. Keep it until the move is seen to be right:
'csalgodes help move-check' says how.
";

const MOVE_WEIGH: &str = "\
csalgodes move-weigh --from T,F,N --order T,F,N --key K --length L --stamp S
                     --keepers A,B,.. --keeper Y [--replace] FOLDER LETTER

The new keeper Y weighs the sub-letters of old keepers into its own letter. In
FOLDER the file A is the sub-letter that it got from old keeper A, the file B
that from B, and so on. --keepers lists the T+1 old keepers to weigh, with the
T of the old order, --from; all new keepers must list the same. The letter is
of the new order, --order, of key K, keeper Y, stamp S and length L. It goes
into the file LETTER, or to standard output for -. A file LETTER that is there
stays, unless --replace is said.

A sub-letter of another order, key, keeper, stamp or length is answered 16. An
old keeper that is repeated, missing or not listed is answered 19.

A file that is missing or has not 2048 bytes ends it with 100.

The sub-letters of a new keeper are as good as its letter: remove them once
they are weighed. No old letter may go before the move is seen to be right:
'csalgodes help move-check' says how.
";

const MOVE_CHECK: &str = "\
csalgodes move-check --from T,F,N --order T,F,N --key K OLD NEW

Joins two trays, the folders OLD and NEW, and says whether both give the same
key. OLD has letters of the old order, --from, and NEW the moved letters, of
the new order, --order. The key is written nowhere:

  old key 100 stamp 2 length 32
  new key 100 stamp 3 length 32
  the same key

It ends with 0 where they give the same, with 99 and 'different keys' where
they do not, and with 6, 7 or 8 where one of them gives none. Look whether the
stamps are those of the old letters and of the move.

One old keeper that lies spoils a move, and nothing in the new letters shows
it. So does one letter that was damaged and made good again, and so do old
letters of two different cuts. So before the old letters go, a signer collects
the old letters and the new ones in two trays, and checks them. If the keys
differ, drop the new letters, and move again with other old keepers, and with
a stamp above those of both. If they are the same, store the new letters, and
drop the old ones. Each tray is as good as the key: remove both.
";

// What one command does.
pub fn say_help(rt: &HostRuntime, command: Command) -> Result<(), Status> {
    let text = match command {
        Command::Cut => CUT,
        Command::Show => SHOW,
        Command::Store => STORE,
        Command::Fetch => FETCH,
        Command::Join => JOIN,
        Command::Compare => COMPARE,
        Command::MoveCut => MOVE_CUT,
        Command::MoveWeigh => MOVE_WEIGH,
        Command::MoveCheck => MOVE_CHECK,
    };
    told(rt, text)
}

fn told(rt: &HostRuntime, text: &str) -> Result<(), Status> {
    said(rt, Stream::Output, text.as_bytes())
}

pub fn say_version(rt: &HostRuntime) -> Result<(), Status> {
    if word_count(rt) > 2 {
        return Err(too_many(rt, 2));
    }
    told(rt, "csalgodes 0.6.0\n")
}

// What is said where there is no word at all.
pub fn say_usage(rt: &HostRuntime) -> Status {
    let _ = said(rt, Stream::Error, USAGE.as_bytes());
    Status::Misused
}

// A word that is wrong, where no command is named.
pub fn wrong_word(rt: &HostRuntime, word: &[u8], rule: &[u8]) -> Status {
    let mut line = Line::new();
    line.add(b"'");
    line.add(word);
    line.add(b"': ");
    line.add(rule);
    line.say(rt);
    let mut more = Line::new();
    more.add(b"'csalgodes help' says how it is used");
    more.say(rt);
    Status::Misused
}

pub fn no_such_command(rt: &HostRuntime, word: &[u8]) -> Status {
    wrong_word(rt, word, b"there is no such command")
}

fn too_many(rt: &HostRuntime, at: usize) -> Status {
    let mut room = io::buffer();
    let word = word_at(rt, at, &mut room).unwrap_or(&[]);
    wrong_word(rt, word, b"is one word too many")
}

fn help_of(rt: &HostRuntime, word: &[u8]) -> Result<(), Status> {
    if word == b"help".as_slice() {
        return told(rt, USAGE);
    }
    match Command::of(word) {
        Some(command) => say_help(rt, command),
        None => Err(no_such_command(rt, word)),
    }
}

// help, or help of a command.
pub fn help_word(rt: &HostRuntime) -> Result<(), Status> {
    let words = word_count(rt);
    if words < 3 {
        return told(rt, USAGE);
    }
    if words > 3 {
        return Err(too_many(rt, 3));
    }
    let mut room = io::buffer();
    help_of(rt, word_at(rt, 2, &mut room).unwrap_or(&[]))
}
