// Which outstanding fetch is completed, and when.
ghost use Rattle.std.specs.Prelude.{◌≡◌, ◌<◌};
ghost use Rattle.vortex_io.specs.Orders.{first_number, is_on_poll, next_number, number_after, order_of, picked_place};

/// Which outstanding fetch a source completes next.
#[derive(Clone, Copy, Debug, PartialEq, Eq)]
pub enum Order {
    /// The oldest.
    First,
    /// The latest.
    Last,
    /// One that a generator of numbers picks, which starts at this one.
    Seeded(u64),
}

/// When a source completes fetches, and in which order.
#[derive(Clone, Copy, Debug, PartialEq, Eq)]
pub enum Arrive {
    /// When it is polled or waited for.
    OnPoll(Order),
    /// When it is waited for; a poll finds nothing ready.
    OnWait(Order),
}

// The order in which fetches are completed.
fn ordering(arrive: Arrive) -> Order
    ensures { result ≡ order_of arrive }
{
    match arrive {
        Arrive::OnPoll(order) => order,
        Arrive::OnWait(order) => order,
    }
}

// Whether a poll completes fetches.
pub fn answers_polls(arrive: Arrive) -> bool
    ensures { result ≡ is_on_poll arrive }
{
    match arrive {
        Arrive::OnPoll(_) => true,
        Arrive::OnWait(_) => false,
    }
}

// The number at which the generator starts.
pub fn starting(arrive: Arrive) -> u64
    ensures { result ≡ first_number (order_of arrive) }
{
    match ordering(arrive) {
        Order::First => 0,
        Order::Last => 0,
        Order::Seeded(seed) => seed,
    }
}

// The next number of the generator.
fn stepped(number: u64) -> u64
    ensures { result ≡ next_number number }
{
    number
        .wrapping_mul(6_364_136_223_846_793_005)
        .wrapping_add(1_442_695_040_888_963_407)
}

// The generator's number after a pick.
pub fn after_pick(arrive: Arrive, number: u64) -> u64
    ensures { result ≡ number_after (order_of arrive) number }
{
    match ordering(arrive) {
        Order::First => number,
        Order::Last => number,
        Order::Seeded(_) => stepped(number),
    }
}

// The place that is picked among so many outstanding fetches.
pub fn pick(arrive: Arrive, number: u64, count: usize) -> usize
    requires { 0 < count }
    ensures picked { result ≡ picked_place (order_of arrive) number count }
    ensures within { result < count }
{
    match ordering(arrive) {
        Order::First => 0,
        Order::Last => count - 1,
        Order::Seeded(_) => ((stepped(number) >> 33) % count as u64) as usize,
    }
}
