// Requests played on a list land, from the bytes of their lines to the bytes of their answers.
//
// Every function here is proved, and the crate assumes nothing of its own.
#![tactic(auto)]

mod turns;

ghost use Rattle.std.specs.Prelude.{◌≡◌, ◌≤◌, ◌<◌, length};
ghost use Rattle.script.specs.Calls.{fed_of, fed, told, ended, over, is_describing, script_start};
ghost use Rattle.script.specs.inner.Feeding.{Goes, Moves};

use lines::Reader;
use list_land::ListLand;
use units::Addr;

// No arena yet; a land; or a land with a description that goes on from an address.
#[derive(Clone, Copy)]
pub enum Stage {
    Closed,
    Open(ListLand),
    Describing(ListLand, Addr),
}

// A stage after a request, and the position in the output.
#[derive(Clone, Copy)]
pub struct Turn {
    pub stage: Stage,
    pub at: usize,
}

// Where a script stands: its stage, and the line that is being read.
#[derive(Clone, Copy)]
pub struct Script {
    pub stage: Stage,
    pub reader: Reader,
}

// A script after some bytes: how many of them were used, how many were put out, and whether it stopped because the buffer
// is too short or a description has to be printed first.
#[derive(Clone, Copy)]
pub struct Fed {
    pub script: Script,
    pub used: usize,
    pub at: usize,
    pub full: bool,
}

impl Script {
    // A script before the first byte.
    pub fn new() -> Self
        ensures { result ≡ script_start }
    {
        Script {
            stage: Stage::Closed,
            reader: Reader::new(),
        }
    }

    // Whether a description has to be printed.
    pub fn is_describing(self) -> bool
        ensures { result ≡ is_describing self.stage }
    {
        self.stage.is_describing()
    }

    // The bytes from a position on, up to the end of a line, which is then played.
    fn line(self, words: &mut [u64], out: &mut [u8], at: usize, bytes: &[u8], from: usize) -> Fed
        requires at_in_bounds { at ≤ length out.old }
        requires from_in_bounds { from ≤ length bytes.now }
        ensures goes { Goes self words.old bytes.now from out.old at result words.new out.new }
        ensures moves { Moves bytes.now from out.old result words.new }
    {
        let stage = self.stage;
        let read = self.reader.read(bytes, from);
        let reader = read.reader;
        if read.at == bytes.len() {
            return Fed {
                script: Script { stage, reader },
                used: read.at,
                at,
                full: false,
            };
        }
        if stage.is_ready(out.len() - at) {
            let turn = stage.play(words, reader.request(), out, at);
            return Fed {
                script: Script {
                    stage: turn.stage,
                    reader: Reader::new(),
                },
                used: read.at + 1,
                at: turn.at,
                full: false,
            };
        }
        Fed {
            script: Script { stage, reader },
            used: read.at,
            at,
            full: true,
        }
    }

    // Some bytes of the input: their lines are played, and the answers stand at the start of the buffer.
    pub fn feed(self, words: &mut [u64], out: &mut [u8], bytes: &[u8]) -> Fed
        ensures value { result ≡ fed_of (fed self words.old (length out.old) bytes.now) }
        ensures words_after { words.new ≡ (fed self words.old (length out.old) bytes.now).words }
        ensures out_after { out.new ≡ over (fed self words.old (length out.old) bytes.now).text out.old }
    {
        let mut fed = Fed {
            script: self,
            used: 0,
            at: 0,
            full: false,
        };
        while fed.used < bytes.len() {
            let next = fed.script.line(words, out, fed.at, bytes, fed.used);
            if next.full {
                return next;
            }
            fed = next;
        }
        fed
    }

    // The ranges of a description that is under way, as many as the buffer has room for.
    pub fn describe(self, words: &[u64], out: &mut [u8]) -> Fed
        ensures value { result ≡ fed_of (told self words.now (length out.old)) }
        ensures out_after { out.new ≡ over (told self words.now (length out.old)).text out.old }
    {
        let turn = self.stage.describe(words, out);
        Fed {
            script: Script {
                stage: turn.stage,
                reader: self.reader,
            },
            used: 0,
            at: turn.at,
            full: turn.stage.is_describing(),
        }
    }

    // The end of the input: a last line without its newline.
    pub fn end(self, out: &mut [u8]) -> usize
        ensures value { result ≡ length (ended self (length out.old)) }
        ensures out_after { out.new ≡ over (ended self (length out.old)) out.old }
    {
        if out.len() < 2 {
            return 0;
        }
        if self.reader.begun() {
            let next = texts::put_byte(out, 0, b'?');
            return texts::put_byte(out, next, b'\n');
        }
        0
    }
}
