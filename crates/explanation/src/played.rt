// A contract that was played: the one value in which what is possible on a board stands.
ghost use Rattle.law77.specs.Scoring.{stake_of};
ghost use Rattle.explanation.specs.Explained.{Possible};

use law77::Stake;

// What the contract was played for, the tricks of declarer's side, and who declared.
#[derive(Clone, Copy)]
pub(crate) struct Played {
    pub stake: Stake,
    pub tricks: u32,
    pub declarer: u8,
    pub ghost possible: { Possible (stake_of stake) tricks },
}
