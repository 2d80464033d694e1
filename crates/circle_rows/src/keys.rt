//! The keys of the directory's rows.
use crate::keyed::Keyed;
use circle::directory::{
    Account, Arrangement, Client, Community, Connection, Group, GroupMember, Membership, Org,
};

impl Keyed for Org {
    ghost use Rattle.circle.specs.Directory.{org_number};
    ghost use Rattle.circle.specs.Stretches.{numbered};

    ghost key = { numbered org_number };

    fn key(&self) -> (u32, u32) {
        (0, self.number)
    }
}

impl Keyed for Account {
    ghost use Rattle.circle.specs.Directory.{account_number};
    ghost use Rattle.circle.specs.Stretches.{numbered};

    ghost key = { numbered account_number };

    fn key(&self) -> (u32, u32) {
        (0, self.person.number)
    }
}

impl Keyed for Client {
    ghost use Rattle.circle.specs.Directory.{client_key};

    ghost key = { client_key };

    fn key(&self) -> (u32, u32) {
        (self.org, self.client)
    }
}

impl Keyed for Community {
    ghost use Rattle.circle.specs.Directory.{community_number};
    ghost use Rattle.circle.specs.Stretches.{numbered};

    ghost key = { numbered community_number };

    fn key(&self) -> (u32, u32) {
        (0, self.number)
    }
}

impl Keyed for Membership {
    ghost use Rattle.circle.specs.Directory.{membership_key};

    ghost key = { membership_key };

    fn key(&self) -> (u32, u32) {
        (self.community, self.org)
    }
}

impl Keyed for Connection {
    ghost use Rattle.circle.specs.Directory.{connection_key};

    ghost key = { connection_key };

    fn key(&self) -> (u32, u32) {
        (self.low, self.high)
    }
}

impl Keyed for Group {
    ghost use Rattle.circle.specs.Directory.{group_number};
    ghost use Rattle.circle.specs.Stretches.{numbered};

    ghost key = { numbered group_number };

    fn key(&self) -> (u32, u32) {
        (0, self.number)
    }
}

impl Keyed for GroupMember {
    ghost use Rattle.circle.specs.Directory.{group_member_key};

    ghost key = { group_member_key };

    fn key(&self) -> (u32, u32) {
        (self.group, self.org)
    }
}

impl Keyed for Arrangement {
    ghost use Rattle.circle.specs.Directory.{arrangement_key};

    ghost key = { arrangement_key };

    fn key(&self) -> (u32, u32) {
        (self.source, self.org)
    }
}
