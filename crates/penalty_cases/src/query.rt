// A case in its bytes: the rows of an owner's table, or a bottom, the settings of the layers over it, and a question.
ghost use Rattle.std.specs.Prelude.{◌<◌, length, IfSome};

use cases::Case;
use penalty::Question;

/// What is asked.
#[derive(Clone, Copy)]
pub enum Query<'a> {
    /// Rows, four bytes a number, in force for all cases up to the next rows.
    Rows {
        ahead: &'a [u8],
        behind: &'a [u8],
    },
    /// The cost of a question.
    Cost {
        bottom: Bottom,
        settings: Settings,
        question: Question,
    },
}

/// Which bottom a case is about.
#[derive(Clone, Copy)]
pub enum Bottom {
    Absolute,
    TwoSided,
    OwnTable,
}

// What is neither 1 nor 2 is the absolute deviation.
impl From<u8> for Bottom {
    fn from(code: u8) -> Bottom {
        match code {
            1 => Bottom::TwoSided,
            2 => Bottom::OwnTable,
            _ => Bottom::Absolute,
        }
    }
}

/// The settings of the layers: a channel with its weight, the tolerance and the limit.
#[derive(Clone, Copy)]
pub struct Settings {
    pub channel: u8,
    pub weight: u16,
    pub tolerance: u32,
    pub limit: u32,
}

// The question at the front of the bytes, and the bytes after it; no `Case`, since both are of other crates.
fn next_question(bytes: &[u8]) -> Option<(Question, &[u8])>
    ensures { IfSome result (λ parts. length parts.1.now < length bytes.now) }
{
    let [s1, s0, channel, d1, d0, x1, x0, k1, k0, rest @ ..] = bytes else {
        return None;
    };
    let question = Question {
        slots: u16::from_be_bytes([*s1, *s0]),
        channel: *channel,
        readings: u16::from_be_bytes([*d1, *d0]),
        count: u16::from_be_bytes([*x1, *x0]),
        slot: u16::from_be_bytes([*k1, *k0]),
    };
    Some((question, rest))
}

impl<'a> Case<'a> for Settings {
    fn split_first(bytes: &'a [u8]) -> Option<(Settings, &'a [u8])> {
        let ([channel, w1, w0, t3, t2, t1, t0, e3, e2, e1, e0], rest) = bytes.split_first_chunk::<
            11,
        >()?;
        let settings = Settings {
            channel: *channel,
            weight: u16::from_be_bytes([*w1, *w0]),
            tolerance: u32::from_be_bytes([*t3, *t2, *t1, *t0]),
            limit: u32::from_be_bytes([*e3, *e2, *e1, *e0]),
        };
        Some((settings, rest))
    }
}

impl<'a> Case<'a> for Query<'a> {
    fn split_first(bytes: &'a [u8]) -> Option<(Query<'a>, &'a [u8])> {
        if let [3, a1, a0, b1, b0, rest @ ..] = bytes {
            let ahead = 4 * usize::from(u16::from_be_bytes([*a1, *a0]));
            let behind = 4 * usize::from(u16::from_be_bytes([*b1, *b0]));
            let (ahead, rest) = rest.split_at_checked(ahead)?;
            let (behind, rest) = rest.split_at_checked(behind)?;
            return Some((Query::Rows { ahead, behind }, rest));
        }
        let (bottom, rest) = bytes.split_first()?;
        let (settings, rest) = Settings::split_first(rest)?;
        let (question, rest) = next_question(rest)?;
        let query = Query::Cost {
            bottom: Bottom::from(*bottom),
            settings,
            question,
        };
        Some((query, rest))
    }
}
