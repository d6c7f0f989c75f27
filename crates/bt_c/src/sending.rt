//! What C may hand from thread to thread.
use crate::job_handle::JobHandle;
use crate::job_pointer::JobPointer;
use crate::picker_handle::PickerHandle;
use crate::picker_pointer::PickerPointer;

fn is_send<T: Send>(_value: &T) {}

/// C may hand a handle, or a pointer to one, to another thread.
fn handles_are_send(
    picker: &PickerHandle,
    pickers: &PickerPointer,
    job: &JobHandle,
    jobs: &JobPointer,
) {
    is_send(picker);
    is_send(pickers);
    is_send(job);
    is_send(jobs);
}
