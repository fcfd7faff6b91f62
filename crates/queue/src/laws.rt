// Theorems about the definitions: the two round trips between a state and its numbers, and the worked day.
ghost use Rattle.run.specs.Numbers.{DecodeEncode, EncodeDecode};
ghost use Rattle.queue.specs.WorkedDay.{WorkedDay};

// Decoding what was encoded gives it back.
pub fn decode_of_encode()
    ensures { DecodeEncode }
{}

// A tidy queue is what encoding its decoding gives.
pub fn encode_of_decode()
    ensures { EncodeDecode }
{}

// The definitions give the worked day.
pub fn worked_day()
    ensures { WorkedDay }
{}
