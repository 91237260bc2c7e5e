// Memory for a list of any round.
use matching::{Ready, Window};
use penalty::{CHANNELS, LIMIT};

/// As many window places, ready places and list bytes as the largest round needs.
#[derive(Clone, Copy)]
pub struct Memory {
    pub windows: [Window; LIMIT as usize],
    pub ready: [Ready; CHANNELS],
    pub list: [u8; LIMIT as usize],
}

impl Memory {
    /// Memory in which nothing stands.
    pub fn new() -> Memory {
        Memory {
            windows: [Window::default(); LIMIT as usize],
            ready: [Ready::default(); CHANNELS],
            list: [0; LIMIT as usize],
        }
    }
}
