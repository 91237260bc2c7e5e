// What a moment of a scan list costs: the interface of all penalties, and the penalties themselves.
#![tactic(auto)]

mod absolute;
mod band;
mod deviation;
mod interface;
mod layer;
mod own_table;
mod pile;
mod question;
mod root_table;
mod row_refusal;
mod settings;
mod side;
mod stop;
mod threshold;
mod two_sided;
mod weights;

pub use absolute::AbsoluteDeviation;
pub use band::Band;
pub use interface::{Penalty, TOP};
pub use layer::{Layer, Layered};
pub use limits::{CHANNELS, LIMIT};
pub use own_table::OwnTable;
pub use pile::{Layers, Pile};
pub use question::Question;
pub use root_table::roots;
pub use row_refusal::RowRefusal;
pub use settings::SettingRefusal;
pub use side::Side;
pub use stop::Stop;
pub use threshold::{LARGEST_SIZE, Threshold};
pub use two_sided::TwoSided;
pub use weights::{LARGEST_WEIGHT, Weights};
