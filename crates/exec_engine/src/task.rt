//! What a command asks of a run.
ghost use Rattle.std.specs.Prelude.{◌≡◌};
ghost use Rattle.exec_engine.specs.Tasks.{form_of, order_of, task_of, run_task, gen_task};

use exec_words::{Options, Order as WordsOrder};
use pool_backends::Order;
use record_loop::Form;

/// Where the records of a run come from.
#[derive(Clone, Copy)]
pub enum Origin {
    /// They are read from a source, and this is written of their outcomes.
    Source(Form),
    /// So many are generated, and the summary of their outcomes is written.
    Generated(u32),
}

/// What a command asks of a run.
#[derive(Clone, Copy)]
pub struct Task<'a> {
    /// The name of the plan.
    pub plan: &'a str,
    /// How many workers serve the pool, from 0 to `MOST_WORKERS`.
    pub workers: u32,
    /// How many records are worked on at once, from 1 to 256.
    pub window: u32,
    /// In which order each worker takes its names.
    pub order: Order,
    /// Where the records come from.
    pub origin: Origin,
}

/// What is written of a run: one line for all, where the words ask for the summary.
fn form_of(summary: bool) -> Form
    ensures { result ≡ form_of summary }
{
    if summary { Form::Summary } else { Form::Lines }
}

/// The order of a backend that the words name.
fn order_of(order: WordsOrder) -> Order
    ensures { result ≡ order_of order }
{
    match order {
        WordsOrder::Fifo => Order::Fifo,
        WordsOrder::Lifo => Order::Lifo,
    }
}

impl<'a> Task<'a> {
    /// A plan of this name, run by these options over records that come from there.
    fn of(plan: &'a str, options: Options, origin: Origin) -> Task<'a>
        ensures { result ≡ task_of plan.entry options origin }
    {
        Task {
            plan,
            workers: options.workers,
            window: options.window,
            order: order_of(options.order),
            origin,
        }
    }

    /// What `run` asks for.
    pub fn of_run(plan: &'a str, options: Options, summary: bool) -> Task<'a>
        ensures { result ≡ run_task plan.entry options summary }
    {
        Task::of(plan, options, Origin::Source(form_of(summary)))
    }

    /// What `gen` asks for.
    pub fn of_gen(plan: &'a str, count: u32, options: Options) -> Task<'a>
        ensures { result ≡ gen_task plan.entry count options }
    {
        Task::of(plan, options, Origin::Generated(count))
    }
}
