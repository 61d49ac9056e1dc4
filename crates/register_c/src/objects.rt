// The object of a request (document 02, K3): its reader and its writer.
ghost use Rattle.std.specs.Prelude.{◌≡◌, length};
ghost use Rattle.notification.specs.Writing.{written};
ghost use Rattle.request.specs.Reading.{read_object};
ghost use Rattle.request.specs.Writing.{object_text, request_verdict, request_answer};
ghost use Rattle.register_c.specs.Faces.{flat_object, request_to_write, flat_object_written};

use crate::files::{FileRead, flat, flat_refused};
use notification::Notification;
use refusals::{Refusal, number_of, place_of};
use request::{Moment, Request};
use request_reader::reading::read_object;
use request_writer::writing::write_object;

// Number and place of the refusal and the notification as of a file; then day and second of the submission, and the
// origin.
#[repr(C)]
#[derive(Clone, Copy)]
pub struct ObjectRead {
    pub read: FileRead,
    pub day: u32,
    pub second: u32,
    pub origin: [u8; 16],
}

// Number and place of the refusal, 0 and 0 where there is none; then the length of the object.
#[repr(C)]
#[derive(Clone, Copy)]
pub struct ObjectWritten {
    pub number: u32,
    pub place: u32,
    pub length: usize,
}

impl From<Result<Request, Refusal>> for ObjectRead {
    ghost from_gives = { λ x y. y ≡ flat_object x };

    fn from(read: Result<Request, Refusal>) -> ObjectRead {
        match read {
            Ok(request) => {
                let read = flat(0, 0, request.notification);
                let moment = request.moment;
                let origin = request.origin;
                ObjectRead {
                    read,
                    day: moment.day,
                    second: moment.second,
                    origin,
                }
            }
            Err(refusal) => {
                let read = flat_refused(refusal);
                ObjectRead {
                    read,
                    day: 0,
                    second: 0,
                    origin: [0; 16],
                }
            }
        }
    }
}

// The request of a flat struct.
impl From<ObjectRead> for Request {
    ghost from_gives = { λ x r. r ≡ request_to_write x };

    fn from(x: ObjectRead) -> Request {
        let notification = Notification::from(x.read);
        let origin = x.origin;
        let moment = Moment {
            day: x.day,
            second: x.second,
        };
        Request {
            notification,
            origin,
            moment,
        }
    }
}

// The length that was written, or the refusal.
impl From<Result<usize, Refusal>> for ObjectWritten {
    ghost from_gives = { λ x y. y ≡ flat_object_written x };

    fn from(written: Result<usize, Refusal>) -> ObjectWritten {
        match written {
            Ok(length) => ObjectWritten {
                number: 0,
                place: 0,
                length,
            },
            Err(refusal) => ObjectWritten {
                number: number_of(refusal),
                place: place_of(refusal),
                length: 0,
            },
        }
    }
}

// Reads an object.
#[unsafe(no_mangle)]
pub extern "C" fn register_object_read(body: &[u8]) -> ObjectRead
    ensures { result ≡ flat_object (read_object body.now) }
{
    read_object(body).into()
}

// Writes a request's object into a lent buffer, its rest untouched, and gives its length. A request that is refused
// leaves the buffer as it is.
#[unsafe(no_mangle)]
pub extern "C" fn register_object_write(x: ObjectRead, buffer: &mut [u8]) -> ObjectWritten
    ensures { let request = request_to_write x in
        let verdict = request_verdict request (length buffer.old) in
        (result ≡ flat_object_written (request_answer request (length buffer.old)))
        × (buffer.new ≡ written verdict (object_text request) buffer.old) }
{
    let request = Request::from(x);
    let answer = write_object(request, buffer);
    answer.into()
}
