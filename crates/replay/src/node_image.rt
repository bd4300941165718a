// The image of a node: those of its parts, one behind the other.
ghost use Rattle.std.specs.Prelude.{◌+◌, ◌≤◌, length};
ghost use Rattle.image.specs.Image.{node_size};

use node::Node;

// Where each part begins.
const PACE_AT: usize = image::CONFIG;

const FOLLOWER_AT: usize = PACE_AT + image::PACE;

const LEADER_AT: usize = FOLLOWER_AT + image::FOLLOWER;

pub fn node_at(s: &[u8], at: usize) -> Node
    requires { at + node_size ≤ length s.now }
{
    Node {
        config: image::config_at(s, at),
        pace: image::pace_at(s, at + PACE_AT),
        follower: image::follower_at(s, at + FOLLOWER_AT),
        leader: image::leader_at(s, at + LEADER_AT),
    }
}

pub fn put_node(s: &mut [u8], node: Node)
    requires { node_size ≤ length s.old }
{
    image::put_config(s, 0, node.config);
    image::put_pace(s, PACE_AT, node.pace);
    image::put_follower(s, FOLLOWER_AT, node.follower);
    image::put_leader(s, LEADER_AT, node.leader);
}
