//! What the help of each command says. No line of it is wider than a terminal of 80 columns: the
//! ends of lines stand in the texts, since clap breaks none.

pub(crate) static ABOUT: &str =
    "Sends and receives files by YMODEM over serial lines and connections";

pub(crate) static TOP_HELP: &str =
    "`ymodem-tty` sets a serial line, runs `sb` or `rb` on it, and sets it back.
A file goes to a board with U-Boot by three commands. Type the first and the
last at the prompt of the board, and the second here, while no other program
has the line:

  loady
  ymodem-tty --device /dev/ttyUSB0 --speed 115200 send firmware.bin
  crc32 $loadaddr $filesize

From a board, and from within a terminal program, where C-a C-s sends:

  ymodem-tty --device /dev/ttyUSB0 --speed 115200 receive
  picocom -b 115200 --send-cmd \"ymodem-tty send\" /dev/ttyUSB0

Without a command, `play` is meant.

Exit status:
  0  both ends finished (sb, rb, send, receive: its own end)
  1  ended or left otherwise
  2  words, script, name, length or number of files refused; or help asked for
  3  device, closed connection, or want of memory

Example of a session that is played:
  printf 'file a.txt 48656C6C6F\\nok 6\\n' | ymodem";

pub(crate) static SB_ABOUT: &str = "Sends files over a serial line, in order";

pub(crate) static SB_HELP: &str =
    "The line is DEVICE, or else standard input and output. `ymodem-tty` sets the
line and runs this; by hand, set it so before:

  stty -F /dev/ttyUSB0 115200 raw -echo clocal min 0 time 1

Files, waits, what is printed and the exit status are as those of `send`. It
prints to standard output where DEVICE is given, and to standard error where
standard output is the line.

Examples:
  ymodem-tty --device /dev/ttyUSB0 --speed 115200 send firmware.bin
  ymodem sb --line /dev/ttyUSB0 firmware.bin";

pub(crate) static RB_ABOUT: &str = "Receives files over a serial line into a folder";

pub(crate) static RB_HELP: &str =
    "The line is DEVICE, or else standard input and output. `ymodem-tty` sets the
line and runs this; by hand, set it so before:

  stty -F /dev/ttyUSB0 115200 raw -echo clocal min 0 time 1

It asks for the first file at once. A NAME.part that is left, and that nobody
holds, is replaced when NAME comes, also without `--discard-parts`. Else files,
waits, what is printed and the exit status are as those of `receive`. It prints
to standard output where DEVICE is given, and to standard error where standard
output is the line.

Examples:
  ymodem-tty --device /dev/ttyUSB0 --speed 115200 receive
  ymodem rb --line /dev/ttyUSB0";

pub(crate) static SEND_ABOUT: &str = "Connects to 127.0.0.1 and sends files, in order";

pub(crate) static SEND_HELP: &str =
    "Each file is sent under the last part of its path, without time and mode, in
blocks of 1024 bytes while as many remain and then of 128. Where nobody listens
yet it tries again for 2 seconds. It waits 10 seconds for each reply, and gives
up after 10 without progress.

It prints `sender done D STATE`, where D files were acknowledged, and STATE is
`finished` or what else it ended by.

Exit status: 0 where all files were acknowledged, 1 where not, 2 where words, a
name, a length or the number of files are refused, 3 at a device fault, a closed
connection or want of memory.

Example:
  ymodem send --port 4000 firmware.bin settings.txt";

pub(crate) static RECEIVE_ABOUT: &str =
    "Waits for one connection on 127.0.0.1, and receives into a folder";

pub(crate) static RECEIVE_HELP: &str =
    "A file NAME is written as NAME.part and renamed when it is whole. Nothing that
is there is overwritten. It acknowledges a file when the disk has it. A
NAME.part that is there, as a receiver leaves it that is killed, refuses NAME.
It asks for the first file 3 seconds after somebody has connected. It waits 3
seconds for each block, and gives up after 10 without progress.

It prints `file NAME LENGTH TIME MODE` for each file, as block 0 stated them,
and `receiver files M STATE`. TIME, in seconds since 1970, and MODE are in
octal, as in block 0, or `-` where it stated none.

Exit status: 0 where the batch was received whole, 1 where not, 2 where the
words are refused, 3 at a device fault, a closed connection or want of memory.

Example:
  ymodem receive --port 4000 .";

pub(crate) static EXPLAIN_ABOUT: &str = "Tells what passed on a line, and what went wrong there";

pub(crate) static EXPLAIN_HELP: &str =
    "A record has a line for each piece that passed: the seconds, `>` for what the
sender of the files wrote or `<` for what their receiver wrote, and the bytes as
hexadecimal digits. Or give one file of bytes for each way, or for one alone.
`-` is standard input, where one file is read.

A capture of one TCP connection, as `tcpdump -w` writes it, is told too. Who
begins with C, NAK or G receives the files, and who begins with a block sends
them. Else who opened the connection does. With --turned it is the other way.

It prints a line for each frame and each answer, and a last one that says what
went wrong, and what to try. With --chart that is drawn too, as a picture in
SVG. No file that is there is overwritten.

Exit status: 0 where all of it was told, 1 where a file cannot be read, is no
record or was cut, or the chart cannot be written, 2 where the words are
refused, 3 where it cannot print, or at want of memory.

Examples:
  ymodem explain session.record
  ymodem explain --chart session.svg session.record
  ymodem explain session.pcap
  ymodem explain --there sent.bin --back answered.bin";

pub(crate) static JUDGE_ABOUT: &str = "Tries a sender or a receiver of YMODEM by a list of cases";

pub(crate) static JUDGE_HELP: &str =
    "It plays each case to the peer and prints a line for it: what the reference
does there, what the peer did, and `conforms`, `differs (harmless)`, `loses
data` or `no answer`; or `not tried`, where the session never came to its
place. The last lines say what to avoid with this peer.

The peer has to be started anew for each case: standard error says when. It is
waited for 30 seconds. `ymodem-judge` starts a peer by a command and runs this.

A receiver is connected to at the port, and is sent files. Give the folder that
it stores in by --stored, empty at each start: then its files are compared. A
sender connects to the port. It is to send the one file that this makes:

  seq 302 > judge.txt

Exit status: 0 where nothing is to be avoided, 1 where something is, 2 where the
words are refused, 3 at a device fault or want of memory.

Examples:
  ymodem judge receiver --port 4000 --stored incoming
  ymodem judge sender --line /dev/ttyUSB0
  ymodem judge receiver --list";

pub(crate) static PLAY_ABOUT: &str = "Plays the session of a script, and prints what was seen";

pub(crate) static PLAY_HELP: &str = "It reads the script from standard input. Lines of a script:
  short                      short blocks alone
  single                     the receiver acknowledges the first EOT
  file NAME HEX|- [TIME [MODE]]   a file, with its time and mode in octal
  ok N                       N whole rounds
  round T B                  one round: each way whole, lost, or hex:DIGITS

Exit status: 0 where both ends finished, 1 where not, 2 where the script is
refused, 3 at a device fault or want of memory.

Example:
  printf 'file a.txt 48656C6C6F\\nok 6\\n' | ymodem play";

pub(crate) static LOOP_ABOUT: &str = "Plays the session of a script over a connection to itself";

pub(crate) static LOOP_HELP: &str =
    "It reads the script from standard input, and prints what `play` prints.

Exit status: 0 where both ends finished, 1 where not, 2 where the words or the
script are refused, 3 at a device fault or want of memory.

Example:
  printf 'file a.txt 48656C6C6F\\nok 6\\n' | ymodem loop --port 4000";
