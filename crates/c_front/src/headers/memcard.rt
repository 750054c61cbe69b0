// memcard.h: the memory card.

pub const MEMCARD: &str = "\
#ifndef MEMCARD_H
#define MEMCARD_H

bool card_is_connected()
{
    return port_in(MEM_Connected) != 0;
}

// count words of the card from its word offset on
void card_read_data(int* to, int offset, int count)
{
    int* from = card_memory() + offset;
    while (count >= 4)
    {
        to[0] = from[0];
        to[1] = from[1];
        to[2] = from[2];
        to[3] = from[3];
        to += 4;
        from += 4;
        count -= 4;
    }
    while (count > 0)
    {
        *to = *from;
        to++;
        from++;
        count--;
    }
}

void card_write_data(int* from, int offset, int count)
{
    int* to = card_memory() + offset;
    while (count >= 4)
    {
        to[0] = from[0];
        to[1] = from[1];
        to[2] = from[2];
        to[3] = from[3];
        to += 4;
        from += 4;
        count -= 4;
    }
    while (count > 0)
    {
        *to = *from;
        to++;
        from++;
        count--;
    }
}

#endif
";
