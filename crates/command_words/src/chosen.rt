use control_file::{Mode, Side};
use fs_model::Path;

// What a word that stands for itself chooses.
#[derive(Clone, Copy)]
pub enum Flag {
    ChecksOnly,
    Carries(Mode),
    Reports,
}

// What the words of an upgrade or of a report have chosen.
#[derive(Drop)]
pub struct Chosen {
    pub old: Option<Path>,
    pub new: Option<Path>,
    pub check: bool,
    pub mode: Option<Mode>,
    pub report: bool,
}

// What was chosen, and whose directory the next word has to name.
#[derive(Drop)]
pub struct Reader {
    pub chosen: Chosen,
    pub awaits: Option<Side>,
}
