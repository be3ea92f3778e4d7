// What is told on standard error.

// Says how many lines were no calls, where there were any. A write that fails is passed over.
pub(crate) fn tell_left_out(rt: &HostRuntime, count: u64) {
    if count > 0 {
        let _ = eprintln!(rt; "blank: lines left out, since they are no calls: {count}");
    }
}
