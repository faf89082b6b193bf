// How long a call takes where nothing else is under way.
ghost use Rattle.std.specs.Prelude.{◌≡◌, ◌≤◌, ◌^◌};
ghost use Rattle.call_figures.specs.Alone.{message_alone, call_alone, answer_of};

use experiment::{Experiment, Framing};

/// How many bytes the answer to a request has: 8 of service 1, and as many as the request of any other.
pub fn response_to(experiment: &Experiment, request: u32) -> u32
    ensures { result ≡ answer_of experiment.now request }
{
    if experiment.load.service == 1 {
        8
    } else {
        request
    }
}

/// How long a message alone takes, in picoseconds: from the first bit of its first frame until the receiver has the last one.
/// The sender sends its frames without a gap. The time is that of all frames on one link, of the longest frame on the other
/// link, and the delays.
pub fn message_alone(experiment: &Experiment, length: u32) -> u64
    requires { length ≤ 1000000 }
    ensures value { result ≡ message_alone experiment.now length }
    ensures most { result ≤ 2 ^ 62 }
{
    let network = &experiment.network;
    let framing = Framing::new(&experiment.settings, network.overhead);
    let longest = framing.wire(length.min(experiment.settings.seg));
    let bytes = framing.wire(length) + longest;
    network.byte * bytes + 2 * network.delay + network.switch + network.host_delay
}

/// A call alone: its request, its service, and right behind that its response.
pub fn call_alone(experiment: &Experiment, request: u32) -> u64
    requires { request ≤ 1000000 }
    ensures { result ≡ call_alone experiment.now request (answer_of experiment.now request) }
{
    let asked = message_alone(experiment, request);
    let answered = message_alone(experiment, response_to(experiment, request));
    asked + answered + experiment.network.service_time
}
