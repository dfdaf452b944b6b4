// What the program takes and says: standard input, whole or not at all, and no words.
ghost use Rattle.std.specs.Prelude.{◌≡◌, ◌≤◌, length};

use system::output::{Stream, put};

// Says it on standard error, as far as that takes it.
pub fn say(rt: &HostRuntime, words: &str) {
    let _ = put(rt, Stream::Error, words.as_bytes());
}

// Takes as much as there is room for; says so where nothing counts because a read failed.
pub fn taken<'a>(rt: &HostRuntime, room: &'a mut [u8]) -> &'a [u8]
    ensures { length result.now ≤ length room.old }
{
    match system::input::taken(&mut rt.stdin(), room) {
        Ok(bytes) => bytes,
        Err(_) => {
            say(rt, "report: standard input cannot be read\n");
            &[]
        }
    }
}

// Says how to call it, also for --help: a status of 0 says that there is a report with answer 0.
pub fn refuse_words(rt: &HostRuntime) -> u8
    ensures { result ≡ 100 }
{
    say(
        rt,
        "usage: report <INPUT, where INPUT is four bytes t, f, n, key and then the tray.\n",
    );
    say(
        rt,
        "The status is the number of the answer, or 100 where no report was written.\n",
    );
    100
}
