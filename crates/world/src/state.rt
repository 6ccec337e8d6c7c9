// The world of a flight.
use channel::Channel;

// More than these are never under way.
pub const MOST: usize = 16;

// The two boxes, what is under way, the number of the last start request that was sent, and of the one that the aircraft heard last and did not refuse.
#[derive(Drop)]
#[derive(Clone, Copy)]
pub struct World {
    pub ground_end: bench::reply::Setup,
    pub air: air_bench::reply::Setup,
    pub held: Channel,
    pub last: u64,
    pub taken: u64,
}
