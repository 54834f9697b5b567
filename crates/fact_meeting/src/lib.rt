// Host and port reach "running" together. The contract carries the fact; the function counts the exchanges.
#![tactic(auto)]

ghost use Rattle.std.specs.Prelude.{◌≡◌, length};
ghost use Rattle.fact_meeting.specs.Meeting.{enough, sights, EveryMeeting, EveryWay};

pub fn every_meeting() -> u16
    ensures { (result ≡ enough) × EveryMeeting }
{
    4
}

// Whatever the host meets with on its way: the function counts the kinds of sight.
pub fn every_way() -> u16
    ensures { (result ≡ length sights) × EveryWay }
{
    2
}
