// A booking desk with four slots: tasks are booked for ticks, and are handed out as their ticks come.
#![tactic(auto)]

ghost use Rattle.std.specs.Prelude.{◌≡◌, min, [], ◌++◌, length, take, drop};
ghost use Rattle.order.specs.Lines.{held, spare, SameSlots};
ghost use Rattle.booking_desk.specs.Timetable.{arranged, handed, left_in};

use order::booking::Booking;
use order::line::Line;
use std::io;

// Puts bookings in one after another, as long as there is room, and says how many went in.
// A loop, and no `position`: its closure would change the line, of which a proof then knows nothing (tried).
fn put_all(line: &mut Line<'_, Booking>, wanted: &[Booking]) -> usize
    ensures slots { SameSlots line.old line.new }
    ensures count { result ≡ min (length wanted.now) (length (spare line.old)) }
    ensures records { held line.new ≡ arranged (held line.old) (take result wanted.now) }
    ensures free { spare line.new ≡ drop result (spare line.old) }
{
    for (i, booking) in wanted.iter().enumerate() {
        if line.put(*booking).is_err() {
            return i;
        }
    }
    wanted.len()
}

// Writes bookings into the area in their order, as many as it has slots for, and says how many; the slots past them stay.
fn timetable(area: &mut [Booking], wanted: &[Booking]) -> usize
    ensures count { result ≡ min (length wanted.now) (length area.old) }
    ensures written { area.new ≡ arranged [] (take result wanted.now) ++ drop result area.old }
{
    let mut line = Line::new(area);
    put_all(&mut line, wanted)
}

// Hands out the sooner of two bookings, as far as the area has slots for them; the other one stays in the area.
fn sooner(area: &mut [Booking], a: Booking, b: Booking) -> Option<Booking>
    ensures answer { result ≡ handed a b area.old }
    ensures left { area.new ≡ left_in a b area.old }
{
    let mut line = Line::new(area);
    let _ = line.put(a);
    let _ = line.put(b);
    line.take(0)
}

// Books a task for a tick, if a slot is free. Runtime and line go side by side: no plainer as a struct, which would lend both again.
fn book(rt: &impl Print, line: &mut Line<'_, Booking>, task: u8, tick: u32) -> io::Result<()> {
    match line.put(Booking { tick, task }) {
        Ok(()) => println!(rt; "book task {task} for tick {tick}: booked"),
        Err(refusal) => println!(rt;
            "book task {task} for tick {tick}: refused {}",
            refusal.number()
        ),
    }
}

// Says for which tick a task is booked next.
fn ask(rt: &impl Print, line: &Line<'_, Booking>, task: u8) -> io::Result<()> {
    match line.earliest_of(task) {
        Some(Booking { tick, .. }) => println!(rt; "earliest of task {task}: tick {tick}"),
        None => println!(rt; "earliest of task {task}: none"),
    }
}

// Hands out what is due at a clock, until nothing is.
fn hand_out(rt: &impl Print, line: &mut Line<'_, Booking>, clock: u32) -> io::Result<()> {
    while let Some(Booking { tick, task }) = line.take_due(clock) {
        println!(rt; "clock {clock}: task {task}, booked for tick {tick}")?;
    }
    println!(rt; "clock {clock}: nothing due")
}

// Prints bookings in one row, each as its task and its tick.
fn show(rt: &impl Print, title: &str, bookings: &[Booking]) -> io::Result<()> {
    print!(rt; "{title}:")?;
    for Booking { tick, task } in bookings {
        print!(rt; " {task}@{tick}")?;
    }
    println!(rt; "")
}

// Bookings come in, one more than the desk has slots for.
fn fill(rt: &impl Print, line: &mut Line<'_, Booking>) -> io::Result<()> {
    book(rt, line, 3, 9)?;
    book(rt, line, 1, 4)?;
    book(rt, line, 2, 9)?;
    book(rt, line, 3, 6)?;
    book(rt, line, 0, 5)?;
    show(rt, "line", line.records())?;
    ask(rt, line, 3)?;
    ask(rt, line, 5)
}

// They are handed out clock by clock, and one more comes in on the way.
fn serve(rt: &impl Print, line: &mut Line<'_, Booking>) -> io::Result<()> {
    hand_out(rt, line, 3)?;
    hand_out(rt, line, 4)?;
    hand_out(rt, line, 6)?;
    ask(rt, line, 3)?;
    book(rt, line, 0, 7)?;
    show(rt, "line", line.records())?;
    hand_out(rt, line, 9)?;
    show(rt, "line", line.records())
}

// A day at the desk.
fn day(rt: &impl Print, slots: &mut [Booking]) -> io::Result<()> {
    let mut line = Line::new(slots);
    fill(rt, &mut line)?;
    serve(rt, &mut line)
}

fn main(rt: HostRuntime) -> io::Result<()> {
    let mut slots = [Booking { tick: 0, task: 0 }; 4];
    day(&rt, &mut slots)?;
    let wanted = [
        Booking { tick: 8, task: 2 },
        Booking { tick: 2, task: 1 },
        Booking { tick: 5, task: 0 },
    ];
    let many = timetable(&mut slots, &wanted);
    show(&rt, "timetable", &slots[..many])?;
    if let Some(booking) = sooner(&mut slots, wanted[0], wanted[1]) {
        show(&rt, "sooner", &[booking])?;
    }
    show(&rt, "slots", &slots)
}
