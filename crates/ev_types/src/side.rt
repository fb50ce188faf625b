// The two sides of a link, and the names of ends and bufferevents.
ghost use Rattle.std.specs.Prelude.{◌≡◌};
ghost use Rattle.ev_types.specs.Sides.{other, peer as peer_of, number as number_of};

/// One of the two sides of a link: the connection that was accepted, or the one that was made for it.
///
/// Own.
#[derive(Clone, Copy, Debug, PartialEq, Eq)]
pub enum Side {
    In,
    Out,
}

impl Side {
    /// The other one. Constant cost.
    pub fn other(self) -> Side
        ensures { result ≡ other self }
    {
        match self {
            Side::In => Side::Out,
            Side::Out => Side::In,
        }
    }
}

/// A side of a link, and the name of its end: the outside connection. Links are numbered from 0.
///
/// Own.
#[derive(Clone, Copy, Debug, PartialEq, Eq)]
pub struct SideId {
    pub link: u32,
    pub side: Side,
}

impl SideId {
    /// The other side of the same link. Constant cost.
    pub fn peer(self) -> SideId
        ensures { result ≡ peer_of self }
    {
        SideId {
            link: self.link,
            side: self.side.other(),
        }
    }

    /// The place of the side among all sides: In of each link before its Out. Constant cost.
    pub fn number(self) -> usize
        ensures { result ≡ number_of self }
    {
        let link = self.link as usize;
        match self.side {
            Side::In => 2 * link,
            Side::Out => 2 * link + 1,
        }
    }
}

/// The number of a bufferevent. Only `World::renew_at` of bev_world uses one again, once its bufferevent is freed.
///
/// Own; libevent names a bufferevent by its pointer.
#[derive(Clone, Copy, Debug, PartialEq, Eq)]
pub struct BevId(pub u32);
