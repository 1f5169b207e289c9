//! The packets by which a worker changes its function.

ghost use Rattle.std.specs.Prelude.{◌≡◌, map};
ghost use Rattle.std.specs.Option.{option_map};
ghost use Rattle.gear_packets.specs.Requests.{packet_of};
ghost use Rattle.worker_state.specs.Registration.{change_of, seen_name, RegistersTo};

use gear_packets::Request;

/// The packets by which a worker that has registered the function `from`, or none, comes to have registered `to`, or none:
/// CANT_DO of the old one and then CAN_DO of the new one, each only if it is needed. If the names are equal there is
/// neither. So the server never has the worker down for both.
pub fn change<'a>(from: Option<&'a [u8]>, to: Option<&'a [u8]>) -> [Option<Request<'a>>; 2]
    ensures exact { map (option_map packet_of) result ≡ change_of (seen_name from.entry) (seen_name to.entry) }
    ensures registers { RegistersTo (seen_name from.entry) (map (option_map packet_of) result) (seen_name to.entry) }
{
    match (from, to) {
        (None, None) => [None, None],
        (None, Some(to)) => [None, Some(Request::CanDo(to))],
        (Some(from), None) => [Some(Request::CantDo(from)), None],
        (Some(from), Some(to)) => {
            if from == to {
                [None, None]
            } else {
                [Some(Request::CantDo(from)), Some(Request::CanDo(to))]
            }
        }
    }
}
